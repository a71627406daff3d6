// Calls on a monitor, by a book of the events that stand and the marks.
ghost use Rattle.std.specs.Prelude.{Some};
ghost use Rattle.reference.specs.Printed.{finality_words};

use crate::bound::Bound;
use crate::formula::Formula;
use crate::grade::Grade;
use crate::meaning::Record;
use crate::refusal::{Reason, Refusal, Stop};
use crate::residue::residue;
use crate::rests::all_rests;
use crate::set::Set;
use std::alloc::{AllocError, Global};
use std::fmt;

// A call: its kind, and the code of an event or of a look ahead.
#[derive(Clone, Copy)]
pub enum Asked {
    Event(u32),
    LookAhead(u32),
    Mark,
    Back,
    Keep,
    Standing,
}

// Whether a verdict can still change.
#[derive(Clone, Copy, PartialEq, Eq, Debug)]
pub enum Finality {
    SoFar,
    ForGood,
}

impl fmt::Display for Finality {
    ghost output = { λ x. Some (finality_words x) };

    fn fmt<W: fmt::Write>(&self, f: &mut fmt::Formatter<W>) -> fmt::Result {
        f.write_str(match self {
            Finality::SoFar => "so far",
            Finality::ForGood => "for good",
        })
    }
}

#[derive(Drop)]
pub struct Told {
    pub verdict: Grade,
    pub finality: Finality,
    pub count: usize,
    // the value of what is left of the rule, at each set of obligations
    pub table: Vec<bool>,
}

#[derive(Drop)]
pub struct Book<'a> {
    heap: Global,
    bound: &'a Bound,
    obligations: Vec<usize>,
    rests: Vec<Vec<Set>>,
    events: Vec<u32>,
    marks: Vec<usize>,
}

// How many obligations a rule has, or that they are too many.
pub fn count_obligations(heap: Global, formula: &Formula) -> Result<usize, Stop> {
    let count = formula.obligations(heap)?.len();
    if count > 8 {
        return Err(Reason::ManyObligations.at(count).into());
    }
    Ok(count)
}

// A book with no events.
pub fn open_book(heap: Global, bound: &Bound) -> Result<Book<'_>, AllocError> {
    let possible = bound.possible_sets(heap)?;
    Ok(Book {
        heap,
        bound,
        obligations: bound.formula.obligations(heap)?,
        rests: all_rests(heap, &bound.formula, &possible)?,
        events: Vec::new(heap),
        marks: Vec::new(heap),
    })
}

impl Book<'_> {
    // Whether each rest behind the events leaves them their verdict.
    fn finality(&self, record: &Record, now: Grade) -> Result<Finality, AllocError> {
        let formula = &self.bound.formula;
        for rest in self.rests.iter() {
            let whole = formula.followed(self.heap, record, rest.as_slice())?;
            if formula.verdict(self.heap, &whole)? != now {
                return Ok(Finality::SoFar);
            }
        }
        Ok(Finality::ForGood)
    }

    fn table(&self) -> Result<Vec<bool>, AllocError> {
        let mut letters = Vec::new(self.heap);
        for code in self.events.iter() {
            letters.push(self.bound.letters_on(*code))?;
        }
        residue(
            self.heap,
            &self.bound.formula,
            self.obligations.as_slice(),
            letters.as_slice(),
        )
    }

    // How things stand.
    pub fn standing(&self) -> Result<Told, AllocError> {
        let record = self.bound.record(self.heap, self.events.as_slice())?;
        let verdict = self.bound.formula.verdict(self.heap, &record)?;
        Ok(Told {
            verdict,
            finality: self.finality(&record, verdict)?,
            count: self.events.len(),
            table: self.table()?,
        })
    }

    // Takes in an event, or says why not.
    pub fn note_event(&mut self, code: u32) -> Result<(), Stop> {
        let n = self.events.len();
        if n >= 4095 {
            return Err(Reason::ManyEvents.at(4096).into());
        }
        self.bound.check_event(code, n.saturating_add(1), false)?;
        self.events.push(code)?;
        Ok(())
    }

    fn mark(&mut self) -> Result<(), Stop> {
        if self.marks.len() >= 8 {
            return Err(Reason::NinthMark.at(8).into());
        }
        self.marks.push(self.events.len())?;
        Ok(())
    }

    // Takes the last mark off: how many events it was set after.
    fn unmark(&mut self) -> Result<usize, Refusal> {
        self.marks.pop().ok_or(Reason::NoMark.at(0))
    }

    // Does what is asked, or says why not. A look ahead is done as an event here.
    // A switch, as the list of calls is compared with the library's.
    fn note(&mut self, asked: Asked) -> Result<(), Stop> {
        match asked {
            Asked::Event(code) | Asked::LookAhead(code) => self.note_event(code)?,
            Asked::Mark => self.mark()?,
            Asked::Back => {
                let n = self.unmark()?;
                self.events.truncate(n);
            }
            Asked::Keep => {
                self.unmark()?;
            }
            Asked::Standing => {}
        }
        Ok(())
    }

    // The answer to a call.
    pub fn ask(&mut self, asked: Asked) -> Result<Told, Stop> {
        self.note(asked)?;
        let told = self.standing()?;
        if matches!(asked, Asked::LookAhead(_)) {
            self.events.pop();
        }
        Ok(told)
    }
}
