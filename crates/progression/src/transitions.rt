// How the vectors of a rule's obligations follow one another, for every set of letters.
ghost use Rattle.std.specs.Prelude.{◌≡◌, ℕ, ◌<◌, [], slice_index_or};
ghost use Rattle.polynomials.specs.Held.{vectors};
ghost use Rattle.progression.specs.Progress.{at_end, moves_of};
ghost use Rattle.progression.specs.Tables.{Changes, AllChanges};

use crate::plan::{MOST_OBLIGATIONS, Plan};
use polynomials::VectorSet;
use reachable::Machine;
use std::array;

// How many sets of eight letters there are.
const LETTER_SETS: usize = 256;

// The tables of every set of letters, and the sets that are possible. It is large, and wanted only while a monitor is opened.
// An array and no `Vec`: no heap.
#[derive(Drop)]
pub struct Transitions {
    pub(crate) plan: Plan,
    pub(crate) possible: VectorSet,
    pub(crate) start: u8,
    pub(crate) tables: [[VectorSet; MOST_OBLIGATIONS]; LETTER_SETS],
    ghost started: { start ≡ at_end plan.rule },
    ghost changed: { AllChanges plan.rule tables },
}

fn all_changes(plan: &Plan) -> [[VectorSet; MOST_OBLIGATIONS]; LETTER_SETS]
    ensures { (a : ℕ) → a < 256 → Changes plan.now.rule a (slice_index_or result a []) }
{
    array::from_fn(
        |a|
            requires { a < 256 }
            ensures { Changes plan.entry.now.rule a result }
        { plan.changes(a as u8) },
    )
}

impl Transitions {
    pub fn new(plan: Plan, possible: VectorSet) -> Transitions
        ensures { (result.plan ≡ plan) × (result.possible ≡ possible) }
    {
        let start = plan.at_end();
        let tables = all_changes(&plan);
        Transitions {
            plan,
            possible,
            start,
            tables,
        }
    }
}

impl Machine for Transitions {
    ghost moves = { λ m. moves_of m.plan.rule (vectors m.possible) };

    fn start(&self) -> u8 {
        self.start
    }

    fn step(&self, a: u8, v: u8) -> u8 {
        polynomials::step(&self.tables[a as usize], v)
    }

    fn possible(&self, a: u8) -> bool {
        self.possible.has(a)
    }
}
