// How many answers were compared, and how many differ.
use reference::{Finality, Refusal};
use std::alloc::{AllocError, Global};
use std::collections::BTreeMap;
use std::fmt;

#[derive(Clone, Copy, Default, Debug)]
pub struct Count {
    compared: u64,
    differ: u64,
}

impl Count {
    pub fn note(&mut self, same: bool) {
        self.compared = self.compared.saturating_add(1);
        if !same {
            self.differ = self.differ.saturating_add(1);
        }
    }
}

impl fmt::Display for Count {
    fn fmt<W: fmt::Write>(&self, f: &mut fmt::Formatter<W>) -> fmt::Result {
        let compared = self.compared;
        let differ = self.differ;
        write!(f, "{compared} compared, {differ} differ")
    }
}

// The counts of each kind of comparison.
#[derive(Clone, Copy, Default, Debug)]
pub struct Counts {
    pub texts: Count,
    pub lists: Count,
    pub shown: Count,
    pub bindings: Count,
    pub verdicts: Count,
    pub written: Count,
    pub checks: Count,
    pub openings: Count,
    pub calls: Count,
    pub reports: Count,
}

// What was compared, and what was met on the way.
#[derive(Drop)]
pub struct Tally {
    pub counts: Counts,
    // how often each refusal was met, by number
    pub refusals: BTreeMap<u8, u64>,
    // what monitors answered
    pub for_good: u64,
    pub so_far: u64,
}

impl Tally {
    pub fn new(heap: Global) -> Tally {
        Tally {
            counts: Counts::default(),
            refusals: BTreeMap::new(heap),
            for_good: 0,
            so_far: 0,
        }
    }

    // Counts the refusal of the reference, if it is one.
    pub fn met<T>(&mut self, answer: &Result<T, Refusal>) -> Result<(), AllocError> {
        if let Err(refusal) = answer {
            let count = self.refusals.entry(refusal.reason as u8)?.or_insert(0);
            *count = count.saturating_add(1);
        }
        Ok(())
    }

    pub fn told(&mut self, finality: Finality) {
        let count = match finality {
            Finality::ForGood => &mut self.for_good,
            Finality::SoFar => &mut self.so_far,
        };
        *count = count.saturating_add(1);
    }
}
