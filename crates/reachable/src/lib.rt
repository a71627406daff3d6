// Which vectors a machine can come to, and what holds whatever comes.
#![tactic(auto)]

ghost use Rattle.std.specs.Prelude.{◌≡◌, ℕ, true, ◌↔◌, Decides};
ghost use Rattle.polynomials.specs.Held.{vectors};
ghost use Rattle.reachable.specs.Reach.{Moves, Attainable, Exact, ForGood};

mod found;
mod machine;

use found::Found;
pub use machine::Machine;
use polynomials::VectorSet;

// The vectors that the machine can come to, and no others.
#[tactic(auto, using(crate::proofs::Search::progress_all))]
pub fn reachable<M: Machine>(m: &M) -> VectorSet
    ensures { (v : ℕ) → (vectors result v ≡ true) ↔ Attainable (M.moves m.now) v }
{
    let mut found = Found::none();
    found.visit(m.start());
    while let Some(v) = found.next() {
        found.expand(m, v);
    }
    found.seen
}

// Whether the truth table has the value `kept` whatever comes, of any machine that can come to the vectors in `reached` and
// to no others. `kept` is a truth value, and so a bool.
pub fn for_good(table: VectorSet, kept: bool, reached: VectorSet) -> bool
    ensures { (m : Moves) → Exact m (vectors reached) → Decides result (ForGood m (vectors table) kept) }
{
    if kept {
        reached.within(table)
    } else {
        reached.disjoint(table)
    }
}
