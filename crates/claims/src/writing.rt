// The writing of claims.
ghost use Rattle.std.specs.Prelude.{◌≡◌, ◌-◌, ◌/◌, ◌%◌, ◌<◌, length};
ghost use Rattle.rules.specs.First.{answer, Left};
ghost use Rattle.rules.specs.Rules.{node_count};
ghost use Rattle.claims.specs.Ways.{case_of};
ghost use Rattle.claims.specs.Written.{claim_count, claim_next, unwritten, Written};
ghost use Rattle.claims.specs.Posed.{posed};

use crate::case::Case;
use crate::claim::{Claim, Sign};
use crate::so_far::SoFar;
use readings::{BoundRule, Reading};
use rules::Fault;

impl<'a, R: Reading> Case<'a, R> {
    // The claim after the first i: on node i % m, at the place that is i / m before the empty rest.
    fn next_claim(&self, claims: &[Claim]) -> Claim
        requires { length claims.now < claim_count (posed R.meaning self.now) }
        ensures { result ≡ claim_next (posed R.meaning self.now) claims.now (length self.now.trace.now - length claims.now / node_count self.now.bound.now.rule) (length claims.now % node_count self.now.bound.now.rule) }
    {
        let n = self.trace.len();
        let m = self.nodes.len();
        let i = claims.len();
        let spot = self.spot(n - i / m, i % m);
        let so_far = SoFar { n, m, claims };
        let holds = so_far.shows_some(self.ways(spot, Sign::Holds));
        let sign = Sign::from(holds);
        let grounds = so_far.choose(self.ways(spot, sign));
        so_far.claim_on(spot, sign, grounds)
    }
}

// Writes all claims of a bound rule of m nodes on a trace of n events, and answers how many: (n + 1) * m. The claim on node
// j at place p has the number (n + 1 - p) * m + j, all counted from 1. What lies past is left, and a refusal leaves all.
pub fn write<R: Reading>(
    bound: &BoundRule<R>,
    trace: &[u32],
    out: &mut [Claim],
) -> Result<usize, Fault>
    ensures answers { result ≡ answer (unwritten (case_of R.meaning bound.now trace.now) (length out.old)) (claim_count (case_of R.meaning bound.now trace.now)) }
    ensures leaves { Left (unwritten (case_of R.meaning bound.now trace.now) (length out.old)) (out.new ≡ out.old) (Written (case_of R.meaning bound.now trace.now) out.old out.new) }
{
    let case = Case::new(bound, trace)?;
    let total = case.claim_count();
    if out.len() < total {
        return Err(Fault::ShortBuffer(total));
    }
    case.check_events()?;
    // by index: each claim is made from those before it, which `iter_mut` would hold
    for i in 0..total {
        out[i] = case.next_claim(&out[..i]);
    }
    Ok(total)
}
