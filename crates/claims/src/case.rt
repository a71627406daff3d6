// A bound rule on a trace.
ghost use Rattle.std.specs.Prelude.{◌≡◌, ◌≤◌, length};
ghost use Rattle.rules.specs.Rules.{node_count, letter_count, nodes_of};
ghost use Rattle.readings.specs.Binding.{numbers_of};
ghost use Rattle.std.proofs.Props.{props};
ghost use Rattle.verdicts.specs.declared.events.TheConstants.{MOST_EVENTS};

use crate::spot::Spot;
use readings::{BoundRule, Reading};
use rules::{Fault, Node};
use verdicts::{MOST_EVENTS, YesNo, check_events};

// The numbers of the letters and the table of the nodes are those of the bound rule.
#[derive(Drop)]
pub struct Case<'a, R> {
    pub(crate) bound: &'a BoundRule<R>,
    pub(crate) numbers: &'a [u8],
    pub(crate) nodes: &'a [Node],
    pub(crate) trace: &'a [u32],
    ghost numbers_same: { numbers.now ≡ numbers_of bound.now },
    ghost numbers_long: { length numbers.now ≡ letter_count bound.now.rule },
    ghost nodes_same: { nodes.now ≡ nodes_of bound.now.rule } by { Prim.hlevel props },
    ghost nodes_long: { length nodes.now ≡ node_count bound.now.rule },
    ghost few: { length trace.now ≤ MOST_EVENTS },
}

impl<'a, R: Reading> Case<'a, R> {
    ghost use Rattle.std.specs.Prelude.{◌≡◌, ◌+◌, ◌<◌, ◌≤◌, length, MatchResult};
    ghost use Rattle.rules.specs.First.{answer};
    ghost use Rattle.rules.specs.Rules.{node_count};
    ghost use Rattle.rules.specs.declared.fault.Fault.TheVariants.{ManyEvents};
    ghost use Rattle.verdicts.specs.Case.{case_of};
    ghost use Rattle.claims.specs.Claims.{wrong};
    ghost use Rattle.claims.specs.Written.{claim_count};
    ghost use Rattle.claims.specs.Posed.{posed, Lies};
    ghost use Rattle.claims.specs.Bound.{Bound};

    // The bound rule on the trace, if that is not too long.
    pub(crate) fn new(bound: &'a BoundRule<R>, trace: &'a [u32]) -> Result<Case<'a, R>, Fault>
        ensures bound { Bound (case_of R.meaning bound.now trace.now) }
        ensures answers { MatchResult result (λ c. posed R.meaning c ≡ case_of R.meaning bound.now trace.now) (λ f. (f ≡ ManyEvents) × (MOST_EVENTS < length trace.now)) }
    {
        let numbers = bound.numbers();
        let nodes = bound.rule().nodes();
        if trace.len() > MOST_EVENTS {
            return Err(Fault::ManyEvents);
        }
        Ok(Case {
            bound,
            numbers,
            nodes,
            trace,
        })
    }

    // The first event that is refused. Claims take no doubt.
    pub(crate) fn check_events(&self) -> Result<(), Fault>
        ensures { result ≡ answer (wrong (posed R.meaning self.now)) tt }
    {
        check_events::<YesNo, R>(self.bound.reading(), self.numbers, self.trace)
    }

    // How many claims there are: one on each node at each place.
    pub(crate) fn claim_count(&self) -> usize
        ensures { result ≡ claim_count (posed R.meaning self.now) }
    {
        (self.trace.len() + 1) * self.nodes.len()
    }

    // Node `own` at a place.
    pub(crate) fn spot(&self, place: usize, own: usize) -> Spot
        requires place_bound { place ≤ length self.now.trace.now }
        requires own_bound { own < node_count self.now.bound.now.rule }
        ensures place { result.place ≡ place }
        ensures own { result.own ≡ own }
        ensures lies { Lies (posed R.meaning self.now) result }
    {
        Spot {
            place,
            own,
            event: place < self.trace.len(),
        }
    }
}
