// Why something is refused.
ghost use Rattle.std.specs.Prelude.{◌≡◌, Some};
ghost use Rattle.reference.specs.Cases.{layer_of};
ghost use Rattle.reference.specs.Printed.{refusal_fields};

use std::alloc::{AllocError, AllocFailed};
use std::fmt;

// What is wrong, in the order of the numbers that are printed for it.
#[derive(Clone, Copy, PartialEq, Eq, Debug)]
pub enum Reason {
    LongText = 1,
    NoSign,
    Misplaced,
    LongName,
    DeepNesting,
    ManyNodes,
    ManyLetters,
    ManyNames,
    NotAName,
    RepeatedName,
    AbsentName,
    ManyEvents,
    HighCode,
    InDoubt,
    ShortBuffer,
    ManyObligations,
    NinthMark,
    NoMark,
    Unsupported,
    BadEnd,
    OutOfForm,
}

// What the reason is about, in the order of the numbers that are printed for it.
#[derive(Clone, Copy, PartialEq, Eq, Debug)]
pub enum Layer {
    Signs = 1,
    Grammar,
    Names,
    Traces,
    Files,
}

#[derive(Clone, Copy, PartialEq, Eq, Debug)]
pub struct Refusal {
    pub reason: Reason,
    pub place: usize,
}

impl Reason {
    // The refusal for this reason at a place.
    pub fn at(self, place: usize) -> Refusal
        ensures reason { result.reason ≡ self }
        ensures place { result.place ≡ place }
    {
        Refusal {
            reason: self,
            place,
        }
    }
}

impl Refusal {
    pub fn layer(self) -> Layer
        ensures { result ≡ layer_of self.reason }
    {
        match self.reason {
            Reason::NoSign | Reason::LongName => Layer::Signs,
            Reason::LongText
            | Reason::Misplaced
            | Reason::DeepNesting
            | Reason::ManyNodes
            | Reason::ManyLetters => Layer::Grammar,
            Reason::ManyNames | Reason::NotAName | Reason::RepeatedName | Reason::AbsentName =>
                Layer::Names,
            Reason::OutOfForm => Layer::Files,
            _ => Layer::Traces,
        }
    }
}

impl fmt::Display for Refusal {
    ghost output = { λ r. Some (refusal_fields r) };

    fn fmt<W: fmt::Write>(&self, f: &mut fmt::Formatter<W>) -> fmt::Result {
        let number = self.reason as u8;
        let layer = self.layer() as u8;
        let place = self.place;
        write!(f, "{number}\t{layer}\t{place}")
    }
}

// Why there is no answer: a refusal, or want of memory.
#[derive(Drop)]
pub enum Stop {
    Refusal(Refusal),
    Memory(AllocError),
}

impl From<Refusal> for Stop {
    fn from(why: Refusal) -> Stop {
        Stop::Refusal(why)
    }
}

impl From<AllocError> for Stop {
    fn from(why: AllocError) -> Stop {
        Stop::Memory(why)
    }
}

impl<T: Drop> From<AllocFailed<T>> for Stop {
    fn from(why: AllocFailed<T>) -> Stop {
        Stop::Memory(why.into())
    }
}
