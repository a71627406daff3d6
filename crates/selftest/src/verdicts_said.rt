// Comparing verdicts on both scales, and what is written into lent memory.
use crate::same::same;
use crate::trial::Trial;
use readings::Reading;
use reference::{Grade, Reason, Refusal, Values};
use std::alloc::{AllocError, Global};
use verdicts::{Scale, ThreeWay, YesNo, evaluate, valuate};

// A scale, and the grades of the reference: both are other crates', so `grade` is no `From`.
pub trait Graded: Scale + Clone + Copy + Drop {
    // Whether there is a grade for doubt.
    const UNCLEAR: bool;

    // A value to fill memory with.
    const FILLER: Self;

    fn grade(self) -> Grade;
}

impl Graded for YesNo {
    const UNCLEAR: bool = false;

    const FILLER: YesNo = YesNo::Kept;

    fn grade(self) -> Grade {
        match self {
            YesNo::Broken => Grade::Broken,
            YesNo::Kept => Grade::Kept,
        }
    }
}

impl Graded for ThreeWay {
    const UNCLEAR: bool = true;

    const FILLER: ThreeWay = ThreeWay::Unclear;

    fn grade(self) -> Grade {
        match self {
            ThreeWay::Broken => Grade::Broken,
            ThreeWay::Unclear => Grade::Unclear,
            ThreeWay::Kept => Grade::Kept,
        }
    }
}

// How much memory is lent for the marks and for the scratch.
#[derive(Clone, Copy)]
pub struct Room {
    pub marks: usize,
    pub scratch: usize,
}

// Whether lent memory has these grades, and the filler behind them.
fn has_grades<S: Graded>(lent: &[S], grades: &[Grade]) -> bool {
    lent.split_at_checked(grades.len()).is_some_and(|(written, left)| {
        written.iter().map(|v| v.grade()).eq(grades.iter().copied())
            && left.iter().all(|v| v.grade() == S::FILLER.grade())
    })
}

// Whether lent memory is as it was.
fn unwritten<S: Graded>(lent: &[S]) -> bool {
    has_grades(lent, &[])
}

// The refusal of lent memory that is shorter than is needed.
fn check_room(lent: usize, needed: usize) -> Result<(), Refusal> {
    if lent < needed {
        return Err(Reason::ShortBuffer.at(needed));
    }
    Ok(())
}

impl<R: Reading> Trial<'_, R> {
    // The marks of all events, one after another.
    fn marks(&self, heap: Global) -> Result<Vec<Grade>, AllocError> {
        let mut marks = Vec::new(heap);
        for event in self.record.events.iter() {
            marks.extend_from_slice(event.as_slice())?;
        }
        Ok(marks)
    }

    // What the scratch holds in the end: the nodes at place 1, and behind them those at place 2 where there is one.
    fn scratch(&self, heap: Global, values: &Values) -> Result<Vec<Grade>, AllocError> {
        let mut grades = Vec::new(heap);
        for place in 1..=self.record.places().min(2) {
            for node in 1..=self.plain.formula.root() {
                grades.push(values.at(node, place))?;
            }
        }
        Ok(grades)
    }

    // Whether the evaluation of a valuation is the meaning.
    fn same_evaluation<S: Graded>(
        &self,
        heap: Global,
        valuation: &[S],
        room: usize,
    ) -> Result<bool, AllocError> {
        let formula = &self.plain.formula;
        let values = formula.values(heap, &self.record)?;
        let written = self.scratch(heap, &values)?;
        let mut scratch = vec![in heap; S::FILLER; room]?;
        let said = evaluate(
            self.ours.rule(),
            self.trace.len(),
            valuation,
            scratch.as_mut_slice(),
        );
        let left = match said {
            Ok(_) => has_grades(scratch.as_slice(), written.as_slice()),
            Err(_) => unwritten(scratch.as_slice()),
        };
        let meant = check_room(room, formula.root().saturating_mul(2)).and(Ok(values.at(
            formula.root(),
            1,
        )));
        Ok(left && same(said, &meant, |v, grade| v.grade() == *grade))
    }

    // Whether the library says what the reference does of the record, on one scale.
    pub fn same_verdict<S: Graded>(&self, heap: Global, room: Room) -> Result<bool, AllocError> {
        let marks = self.marks(heap)?;
        let mut valuation = vec![in heap; S::FILLER; room.marks]?;
        let laid = valuate(&self.ours, self.trace, valuation.as_mut_slice());
        let meant = check_room(room.marks, marks.len()).and(
            self.plain.check_events(self.trace, S::UNCLEAR),
        );
        if laid.is_err() {
            return Ok(unwritten(valuation.as_slice()) && same(laid, &meant, |_, _| true));
        }
        Ok(
            meant.is_ok()
                && has_grades(valuation.as_slice(), marks.as_slice())
                && self.same_evaluation(heap, valuation.as_slice(), room.scratch)?,
        )
    }
}
