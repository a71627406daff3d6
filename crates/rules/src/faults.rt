// A fault's number, layer and place, as they are printed: the table of REFUSALS, case by case.
ghost use Rattle.std.specs.Prelude.{◌≡◌};
ghost use Rattle.rules.specs.Faults.{number_of, layer_of, layer_number, place_of};

use crate::fault::{Fault, Layer};
use crate::read::TEXT_BYTES;

impl Fault {
    pub fn number(self) -> u8
        ensures { result ≡ number_of self }
    {
        match self {
            Fault::LongText => 1,
            Fault::NoSign(_) => 2,
            Fault::Misplaced(_) => 3,
            Fault::LongName(_) => 4,
            Fault::DeepNesting(_) => 5,
            Fault::ManyNodes(_) => 6,
            Fault::ManyLetters(_) => 7,
            Fault::ManyNames(_) => 8,
            Fault::NotAName(_) => 9,
            Fault::RepeatedName(_) => 10,
            Fault::AbsentName(_) => 11,
            Fault::ManyEvents => 12,
            Fault::HighCode(_) => 13,
            Fault::InDoubt(_) => 14,
            Fault::ShortBuffer(_) => 15,
            Fault::ManyObligations(_) => 16,
            Fault::NinthMark => 17,
            Fault::NoMark => 18,
            Fault::Unsupported(_) => 19,
            Fault::BadEnd(_) => 20,
            Fault::OutOfForm => 21,
        }
    }

    pub fn layer(self) -> Layer
        ensures { result ≡ layer_of self }
    {
        match self {
            Fault::NoSign(_) | Fault::LongName(_) => Layer::Signs,
            Fault::LongText
            | Fault::Misplaced(_)
            | Fault::DeepNesting(_)
            | Fault::ManyNodes(_)
            | Fault::ManyLetters(_) => Layer::Grammar,
            Fault::ManyNames(_)
            | Fault::NotAName(_)
            | Fault::RepeatedName(_)
            | Fault::AbsentName(_) => Layer::Names,
            Fault::ManyEvents
            | Fault::HighCode(_)
            | Fault::InDoubt(_)
            | Fault::ShortBuffer(_)
            | Fault::ManyObligations(_)
            | Fault::NinthMark
            | Fault::NoMark
            | Fault::Unsupported(_)
            | Fault::BadEnd(_) => Layer::Traces,
            Fault::OutOfForm => Layer::Files,
        }
    }

    pub fn place(self) -> usize
        ensures { result ≡ place_of self }
    {
        match self {
            Fault::LongText => TEXT_BYTES,
            Fault::NoSign(at)
            | Fault::Misplaced(at)
            | Fault::LongName(at)
            | Fault::DeepNesting(at)
            | Fault::ManyNodes(at)
            | Fault::ManyLetters(at)
            | Fault::ManyNames(at)
            | Fault::NotAName(at)
            | Fault::RepeatedName(at)
            | Fault::AbsentName(at)
            | Fault::HighCode(at)
            | Fault::InDoubt(at)
            | Fault::ShortBuffer(at)
            | Fault::ManyObligations(at)
            | Fault::Unsupported(at)
            | Fault::BadEnd(at) => at,
            // One past the events of a record, and the marks of a monitor: both limits are of crates above.
            Fault::ManyEvents => 4096,
            Fault::NinthMark => 8,
            Fault::NoMark | Fault::OutOfForm => 0,
        }
    }
}

impl Layer {
    pub fn number(self) -> u8
        ensures { result ≡ layer_number self }
    {
        self as u8
    }
}
