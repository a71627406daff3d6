// What is said of a file.
ghost use Rattle.std.specs.Prelude.{◌≡◌, []};

use claims::Claim;
use rules::Fault;
use std::alloc::Global;
use verdicts::ThreeWay;

// The verdict on its events, or its first fault. A `Result` would say the same, but could not be given a `Display` here.
#[derive(Clone, Copy, PartialEq, Eq, Debug)]
pub enum Answer {
    Verdict(ThreeWay),
    // a fault, and the line of the file that has it
    Refused(Fault, usize),
}

// The answer, and the claims that show it.
#[derive(Drop)]
pub struct Report {
    pub answer: Answer,
    pub claims: Vec<Claim>,
}

impl Report {
    // An answer without claims.
    pub(crate) fn bare(heap: Global, answer: Answer) -> Report
        ensures answer { result.answer ≡ answer }
        ensures claims { result.claims.items ≡ [] }
    {
        Report {
            answer,
            claims: Vec::new(heap),
        }
    }
}
