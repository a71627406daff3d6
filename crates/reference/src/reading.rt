// What the codes of events say of names.
ghost use Rattle.std.specs.Prelude.{◌≡◌};
ghost use Rattle.reference.specs.Cases.{code_count};

use crate::bound::Bound;
use crate::formula::Formula;
use crate::grade::Grade;
use crate::numbered::number_of;
use crate::refusal::{Reason, Refusal, Stop};
use crate::set::Set;
use crate::sign::{Sign, begins_word, is_inner, word_sign};
use std::alloc::Global;

#[derive(Clone, Copy, PartialEq, Eq, Debug)]
pub enum Kind {
    Words,
    Panel,
}

// Two numbers of a kind, each with a meaning of its own.
impl Kind {
    fn most_names(self) -> usize {
        match self {
            Kind::Words => 32,
            Kind::Panel => 8,
        }
    }

    pub fn codes(self) -> u32
        ensures { result ≡ code_count self }
    {
        match self {
            Kind::Words => 256,
            Kind::Panel => 65_536,
        }
    }

    // The mark of the name of this number at a code.
    pub fn mark(self, code: u32, number: usize) -> Grade {
        let answers = Set(u64::from(code / 256));
        let levels = Set(u64::from(code % 256));
        match self {
            Kind::Words => Grade::from(code as usize == number),
            Kind::Panel if !answers.has(number) => Grade::Unclear,
            Kind::Panel => Grade::from(levels.has(number)),
        }
    }
}

fn is_name(text: &[u8]) -> bool {
    text.len() <= 12
        && begins_word(text)
        && text.iter().all(|b| is_inner(*b))
        && word_sign(text) == Sign::Name
}

// A kind of reading, and its names.
#[derive(Clone, Copy)]
pub struct Reading<'a> {
    pub kind: Kind,
    pub names: &'a [&'a [u8]],
}

impl<'a> Reading<'a> {
    // The reading with these names, or why they are refused.
    pub fn new(kind: Kind, names: &'a [&'a [u8]]) -> Result<Reading<'a>, Refusal> {
        let reading = Reading { kind, names };
        let most = kind.most_names();
        if names.len() > most {
            return Err(Reason::ManyNames.at(most.saturating_add(1)));
        }
        for (i, name) in names.iter().enumerate() {
            let number = i.saturating_add(1);
            if !is_name(name) {
                return Err(Reason::NotAName.at(number));
            }
            if reading.find(name) != Some(number) {
                return Err(Reason::RepeatedName.at(number));
            }
        }
        Ok(reading)
    }

    // The number of a name, from 1.
    pub fn find(&self, name: &[u8]) -> Option<usize> {
        number_of(self.names, |n| *n == name)
    }

    // The rule with the number of each letter among the names, or why it cannot be bound.
    pub fn bind(&self, heap: Global, formula: Formula) -> Result<Bound, Stop> {
        let mut numbers = Vec::new(heap);
        for l in formula.letters.iter() {
            numbers.push(
                self.find(l.name.as_slice())
                    .ok_or(Reason::AbsentName.at(l.at))?,
            )?;
        }
        Ok(Bound {
            formula,
            kind: self.kind,
            numbers,
        })
    }

    fn has_mark(&self, mark: Grade, code: u32, number: usize) -> bool {
        (1..=self.names.len()).contains(&number)
            && code < self.kind.codes()
            && self.kind.mark(code, number) == mark
    }

    // The places of a list of numbers whose names have a mark at a code. Eight places count.
    pub fn places(&self, mark: Grade, code: u32, list: &[u8]) -> Set {
        Set::of(
            list.iter()
                .take(8)
                .map(|number| self.has_mark(mark, code, usize::from(*number))),
        )
    }

    // Whether some code shows just this set, with nothing in doubt.
    pub fn is_possible(&self, list: &[u8], set: Set) -> bool {
        (0..self.kind.codes()).any(|code| {
            self.places(Grade::Kept, code, list) == set
                && self.places(Grade::Unclear, code, list) == Set(0)
        })
    }
}
