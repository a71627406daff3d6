// What the codes of events say of the letters of a rule.
use crate::formula::Formula;
use crate::grade::Grade;
use crate::meaning::Record;
use crate::reading::Kind;
use crate::refusal::{Reason, Refusal};
use crate::set::Set;
use std::alloc::{AllocError, Global};
use std::collections::BTreeSet;

// A rule bound to a reading: the number of each letter among the names.
#[derive(Drop)]
pub struct Bound {
    pub formula: Formula,
    pub kind: Kind,
    pub numbers: Vec<usize>,
}

impl Bound {
    // Whether an event leaves a letter in doubt.
    fn doubted(&self, code: u32) -> bool {
        self.numbers
            .iter()
            .any(|n| self.kind.mark(code, *n) == Grade::Unclear)
    }

    // Whether some event does.
    pub fn some_doubt(&self, events: &[u32]) -> bool {
        events.iter().any(|code| self.doubted(*code))
    }

    // Why an event of this number is refused, if it is.
    pub fn check_event(&self, code: u32, number: usize, takes_doubt: bool) -> Result<(), Refusal> {
        if code >= self.kind.codes() {
            return Err(Reason::HighCode.at(number));
        }
        if !takes_doubt && self.doubted(code) {
            return Err(Reason::InDoubt.at(number));
        }
        Ok(())
    }

    // Why a list of events is refused, if it is.
    pub fn check_events(&self, events: &[u32], takes_doubt: bool) -> Result<(), Refusal> {
        for (i, code) in events.iter().enumerate() {
            self.check_event(*code, i.saturating_add(1), takes_doubt)?;
        }
        Ok(())
    }

    // The marks of the letters at each event.
    pub fn record(&self, heap: Global, events: &[u32]) -> Result<Record, AllocError> {
        let mut marks = Vec::new(heap);
        for code in events {
            marks.push(
                self.numbers
                    .iter()
                    .map(|n| self.kind.mark(*code, *n))
                    .collect(heap)?,
            )?;
        }
        Ok(Record { events: marks })
    }

    // The set of the letters that are on at a code.
    pub fn letters_on(&self, code: u32) -> Set {
        Set::of(
            self.numbers
                .iter()
                .map(|n| self.kind.mark(code, *n) == Grade::Kept),
        )
    }

    // The sets of letters that some code shows, with none in doubt.
    pub fn possible_sets(&self, heap: Global) -> Result<BTreeSet<Set>, AllocError> {
        // A list first: most codes show what others show, and to ask a set of the library for each code is dear.
        let mut sets = Vec::new(heap);
        for code in (0..self.kind.codes()).filter(|code| !self.doubted(*code)) {
            let set = self.letters_on(code);
            if !sets.as_slice().contains(&set) {
                sets.push(set)?;
            }
        }
        sets.into_iter().collect(heap)
    }
}
