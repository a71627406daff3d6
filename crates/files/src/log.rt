// A log as read: its rule, bound to its reading, and its events. What is said of it.
ghost use Rattle.std.specs.Prelude.{◌≤◌, vec_len};

use crate::answer::{Answer, Report};
use crate::stop::Stop;
use claims::{Claim, write};
use readings::{BoundRule, Reading};
use rules::Fault;
use std::alloc::Global;
use verdicts::{Scale, TWO_ROWS, ThreeWay, YesNo, evaluate, valuate};

// The most claims that are printed.
const MOST_CLAIMS: usize = 3200;

#[derive(Drop)]
pub(crate) struct Log<R> {
    pub(crate) bound: BoundRule<R>,
    pub(crate) trace: Vec<u32>,
    ghost few: { vec_len trace ≤ 4095 },
}

impl<R: Reading> Log<R> {
    // The verdict, on any scale.
    fn verdict<S: Scale + Clone>(&self, heap: Global) -> Result<S, Stop> {
        let rule = self.bound.rule();
        let n = self.trace.len();
        let mut valuation = vec![in heap; S::bottom(); n * rule.letters().len()]?;
        valuate(&self.bound, &self.trace, &mut valuation)?;
        let mut scratch = vec![in heap; S::bottom(); TWO_ROWS]?;
        Ok(evaluate(rule, n, &valuation, &mut scratch)?)
    }

    // Whether some event leaves a letter of the rule in doubt.
    fn is_doubted(&self) -> bool {
        self.trace.iter().any(|code| self.bound.in_doubt(*code))
    }

    // All claims; a fault of the whole file where they are too many to print.
    fn claims(&self, heap: Global) -> Result<Vec<Claim>, Stop> {
        let total = (self.trace.len() + 1).saturating_mul(self.bound.rule().nodes().len());
        if total > MOST_CLAIMS {
            return Err(Stop::Whole(Fault::ShortBuffer(total)));
        }
        let mut claims = vec![in heap; Claim::BLANK; total]?;
        write(&self.bound, &self.trace, &mut claims)?;
        Ok(claims)
    }

    // Only doubt asks for the scale of three, and then there are no claims.
    pub(crate) fn report(&self, heap: Global) -> Result<Report, Stop> {
        if self.is_doubted() {
            let verdict: ThreeWay = self.verdict(heap)?;
            return Ok(Report::bare(heap, Answer::Verdict(verdict)));
        }
        let verdict: YesNo = self.verdict(heap)?;
        Ok(Report {
            answer: Answer::Verdict(verdict.into()),
            claims: self.claims(heap)?,
        })
    }
}
