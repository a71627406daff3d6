// What a rule means, by its quantifiers over places.
ghost use Rattle.std.specs.Prelude.{◌≡◌, ◌+◌, vec_len};

use crate::formula::{Formula, Node};
use crate::grade::Grade;
use crate::numbered::numbered;
use crate::sign::{Infix, Prefix};
use std::alloc::{AllocError, Global};

// The marks of the letters at each event.
#[derive(Drop)]
pub struct Record {
    pub events: Vec<Vec<Grade>>,
}

// The entry in a row and a column, both numbered from 1.
fn entry(rows: &[Vec<Grade>], row: usize, column: usize) -> Option<Grade> {
    numbered(numbered(rows, row)?.as_slice(), column).copied()
}

impl Record {
    // The mark of a letter at a place; off where there is no event.
    pub fn mark(&self, place: usize, letter: usize) -> Grade {
        entry(self.events.as_slice(), place, letter).unwrap_or(Grade::Broken)
    }

    // How many places there are: one for each event, and the empty rest.
    pub fn places(&self) -> usize
        ensures { result ≡ vec_len self.now.events + 1 }
    {
        self.events.len() + 1
    }
}

// The values of the first nodes at all places, a row for each node.
#[derive(Drop)]
pub struct Values {
    events: usize,
    nodes: Vec<Vec<Grade>>,
}

impl Values {
    // The value of a node at a place, from 1 to the empty rest.
    pub fn at(&self, node: usize, place: usize) -> Grade {
        entry(self.nodes.as_slice(), node, place).unwrap_or(Grade::Broken)
    }

    pub fn holds(&self, node: usize, place: usize) -> bool {
        self.at(node, place) == Grade::Kept
    }

    // `always` and `eventually` are the two quantifiers; a function for both would hide which is which.
    fn always(&self, x: usize, place: usize) -> Grade {
        (place..=self.events)
            .map(|i| self.at(x, i))
            .min()
            .unwrap_or(Grade::Kept)
    }

    fn eventually(&self, x: usize, place: usize) -> Grade {
        (place..=self.events)
            .map(|i| self.at(x, i))
            .max()
            .unwrap_or(Grade::Broken)
    }

    // y at place i, met with x at each place before it.
    fn until_at(&self, x: usize, y: usize, place: usize, i: usize) -> Grade {
        (place..i)
            .map(|q| self.at(x, q))
            .fold(self.at(y, i), Grade::min)
    }

    fn until(&self, x: usize, y: usize, place: usize) -> Grade {
        (place..=self.events)
            .map(|i| self.until_at(x, y, place, i))
            .max()
            .unwrap_or(Grade::Broken)
    }

    fn next(&self, x: usize, place: usize) -> Grade {
        if place > self.events {
            return Grade::Broken;
        }
        self.at(x, place.saturating_add(1))
    }

    fn prefix(&self, prefix: Prefix, x: usize, place: usize) -> Grade {
        match prefix {
            Prefix::Not => !self.at(x, place),
            Prefix::Next => self.next(x, place),
            Prefix::Always => self.always(x, place),
            Prefix::Eventually => self.eventually(x, place),
        }
    }

    fn infix(&self, infix: Infix, x: usize, y: usize, place: usize) -> Grade {
        let a = self.at(x, place);
        let b = self.at(y, place);
        match infix {
            Infix::Until => self.until(x, y, place),
            Infix::And => a.min(b),
            Infix::Or => a.max(b),
            Infix::Implies => (!a).max(b),
            Infix::Xor => a.min(!b).max((!a).min(b)),
            Infix::Iff => a.min(b).max((!a).min(!b)),
        }
    }

    fn grade(&self, record: &Record, node: Node, place: usize) -> Grade {
        match node {
            Node::Letter(letter) => record.mark(place, letter),
            Node::Truth(value) => Grade::from(value),
            Node::Prefix(prefix, x) => self.prefix(prefix, x, place),
            Node::Infix(infix, x, y) => self.infix(infix, x, y, place),
        }
    }
}

impl Formula {
    // The values of all nodes at all places of a record.
    pub fn values(&self, heap: Global, record: &Record) -> Result<Values, AllocError> {
        let mut values = Values {
            events: record.events.len(),
            nodes: Vec::new(heap),
        };
        for node in self.nodes.iter() {
            let row = (1..=record.places())
                .map(|place| values.grade(record, *node, place))
                .collect(heap)?;
            values.nodes.push(row)?;
        }
        Ok(values)
    }

    // The verdict: the whole rule at place 1.
    pub fn verdict(&self, heap: Global, record: &Record) -> Result<Grade, AllocError> {
        let values = self.values(heap, record)?;
        Ok(values.at(self.root(), 1))
    }
}
