// What a search has found so far.
ghost use Rattle.std.specs.Prelude.{◌≤◌};
ghost use Rattle.reachable.specs.Listed.{Listed};

use super::machine::Machine;
use polynomials::VectorSet;

// The vectors found, as a set and in the order that they were found in. The first `done` of them were handed out.
#[derive(Drop)]
pub(crate) struct Found {
    pub(crate) seen: VectorSet,
    // Room for each vector, so that no heap is needed.
    pub(crate) order: [u8; 256],
    pub(crate) count: usize,
    pub(crate) done: usize,
    ghost listed: { ∥ Listed seen order count ∥₁ },
    ghost in_list: { done ≤ count },
}

impl Found {
    ghost use Rattle.std.specs.Prelude.{◌≡◌, ℕ, ◌⊎◌, MatchOption};
    ghost use Rattle.reachable.specs.Found.{In, Grown, AllDone, HandedOut, Expanded};

    #[tactic(auto, using(crate::proofs::Visits::none_listed))]
    pub(crate) fn none() -> Found
        ensures empty { (v : ℕ) → In result v → ⊥ }
        ensures none_done { result.done ≡ 0 }
    {
        Found {
            seen: VectorSet::empty(),
            order: [0; 256],
            count: 0,
            done: 0,
        }
    }

    // Adds v, if it is new.
    #[tactic(auto, using(crate::proofs::Visits::still_listed))]
    pub(crate) fn visit(&mut self, v: u8)
        ensures grown { Grown self.old self.new }
        ensures here { In self.new v }
        ensures others { (u : ℕ) → In self.new u → In self.old u ⊎ (u ≡ v) }
    {
        if !self.seen.has(v) {
            self.seen.add(v);
            self.order[self.count] = v;
            self.count += 1;
        }
    }

    // Hands out the next vector that was not handed out before.
    pub(crate) fn next(&mut self) -> Option<u8>
        ensures { MatchOption result (AllDone self.old self.new) (λ v. HandedOut v self.old self.new) }
    {
        if self.done == self.count {
            return None;
        }
        let v = self.order[self.done];
        self.done += 1;
        Some(v)
    }

    // Adds whatever follows v.
    pub(crate) fn expand<M: Machine>(&mut self, m: &M, v: u8)
        ensures { Expanded (M.moves m.now) 256 v self.old self.new }
    {
        for a in 0..=255 {
            if m.possible(a) {
                self.visit(m.step(a, v));
            }
        }
    }
}
