// What is fixed when a monitor is opened.
ghost use Rattle.std.specs.Prelude.{◌≡◌, length};
ghost use Rattle.polynomials.specs.Held.{vectors};
ghost use Rattle.reachable.specs.Reach.{Exact};
ghost use Rattle.progression.specs.Progress.{at_end, moves_of};

use polynomials::VectorSet;
use progression::Plan;
use rules::MOST_LETTERS;

// The rule with its obligations, the numbers of its letters, the sets of letters that an event may show, and of the vectors of
// the obligations' values that of the empty rest and those of all rests.
#[derive(Clone, Copy)]
pub struct Setup {
    pub(crate) plan: Plan,
    pub(crate) names: [u8; MOST_LETTERS],
    pub(crate) possible: VectorSet,
    pub(crate) start: u8,
    pub(crate) reachable: VectorSet,
    ghost started: { start ≡ at_end plan.rule },
    ghost exact: { Exact (moves_of plan.rule (vectors possible)) (vectors reachable) },
    ghost named: { length names ≡ 8 },
}
