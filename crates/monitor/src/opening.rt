// Opening: what a monitor finds out once, and how it stands by it.
ghost use Rattle.std.specs.Prelude.{◌≡◌, ℕ, ◌<◌, length, take, Decides};
ghost use Rattle.rules.specs.Rules.{letter_count};
ghost use Rattle.readings.specs.Meaning.{Possible};
ghost use Rattle.polynomials.specs.Held.{vectors};
ghost use Rattle.monitor.specs.Standings.{TellsAt};

use crate::point::Point;
use crate::setup::Setup;
use crate::standing::{Finality, Standing};
use polynomials::VectorSet;
use progression::{Plan, Transitions};
use reachable::{Machine, for_good, reachable};
use readings::Reading;
use rules::{MOST_LETTERS, Rule};
use verdicts::YesNo;

// The sets of letters that some code shows, with nothing in doubt.
pub(crate) fn possible_sets<R: Reading>(reading: &R, names: &[u8]) -> VectorSet
    ensures { (a : ℕ) → a < 256 → Decides (vectors result a) (Possible (R.meaning reading.now) names.now a) }
{
    let mut sets = VectorSet::empty();
    for a in 0..=u8::MAX {
        if reading.possible(names, a) {
            sets.add(a);
        }
    }
    sets
}

impl Setup {
    pub(crate) fn new(rule: Rule, names: [u8; MOST_LETTERS], possible: VectorSet) -> Setup
        requires { length names ≡ 8 }
        ensures rule { result.plan.rule ≡ rule }
        ensures names { result.names ≡ names }
        ensures possible { result.possible ≡ possible }
    {
        let plan = Plan::new(rule);
        let start = plan.at_end();
        let transitions = Transitions::new(plan, possible);
        let reachable = reachable(&transitions);
        Setup {
            plan,
            names,
            possible,
            start,
            reachable,
        }
    }

    // The number of each letter in the reading.
    pub(crate) fn letters(&self) -> &[u8]
        ensures { result.now ≡ take (letter_count self.now.plan.rule) self.now.names }
    {
        &self.names[0..self.plan.rule().letters().len()]
    }

    // How things stand at a point. The verdict is the residual's value where no event comes any more, and it is for good if
    // the residual has that value at every vector that some rest has.
    pub(crate) fn standing(&self, now: Point) -> Standing
        ensures count { result.count ≡ now.count }
        ensures residual { result.residual ≡ now.residual }
        ensures tells { TellsAt self.now now.count now.residual result }
    {
        let table = now.residual.to_values();
        let kept = table.has(self.start);
        let settled = for_good(table, kept, self.reachable);
        Standing {
            verdict: YesNo::from(kept),
            finality: Finality::from(settled),
            count: now.count,
            residual: now.residual,
        }
    }
}
