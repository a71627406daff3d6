// The check of a list of claims.
ghost use Rattle.std.specs.Prelude.{◌≡◌, ◌-◌, ◌<◌, length};
ghost use Rattle.std.specs.Option.{MatchOption};
ghost use Rattle.rules.specs.First.{answer};
ghost use Rattle.rules.specs.Rules.{node_count};
ghost use Rattle.claims.specs.Ways.{case_of};
ghost use Rattle.claims.specs.Claims.{says, cites, rests, meets, supported, last_of, bad_end, checked, unsupported, Sound, Exact, Evaluated};
ghost use Rattle.claims.specs.Posed.{posed};

use crate::case::Case;
use crate::claim::Claim;
use crate::grounds::{Fact, Grounds, Ways};
use readings::{BoundRule, Reading};
use rules::Fault;
use verdicts::YesNo;

// The index that a number says, which counts from 1: 0 says none.
fn index(number: u32) -> Option<usize>
    ensures { MatchOption result (number ≡ 0) (λ i. (0 < number) × (i ≡ number - 1)) }
{
    (number as usize).checked_sub(1)
}

// Whether `number` is that of one of the earlier claims, and that claim says a fact.
fn cites(earlier: &[Claim], number: u32, x: Fact) -> bool
    ensures { result ≡ cites earlier.now (length earlier.now) number x }
{
    index(number)
        .and_then(|i| earlier.get(i))
        .is_some_and(|c| c.says(x))
}

impl Claim {
    fn says(self, x: Fact) -> bool
        ensures { result ≡ says self x }
    {
        index(self.place) == Some(x.place)
            && index(self.node) == Some(x.node)
            && self.sign == x.sign
    }

    fn rests(self, earlier: &[Claim], grounds: Grounds) -> bool
        ensures { result ≡ rests earlier.now (length earlier.now) self grounds }
    {
        match grounds {
            Grounds::Nothing => self.first == 0 && self.second == 0,
            Grounds::One(x) => cites(earlier, self.first, x) && self.second == 0,
            Grounds::Both(x, y) => cites(earlier, self.first, x) && cites(earlier, self.second, y),
        }
    }

    fn meets(self, earlier: &[Claim], w: Ways) -> bool
        ensures { result ≡ meets earlier.now (length earlier.now) self w }
    {
        w.any(|g| self.rests(earlier, g))
    }
}

impl<'a, R: Reading> Case<'a, R> {
    // Whether a claim after the earlier ones is on one of the nodes at one of the places, and is supported.
    fn supports(&self, earlier: &[Claim], c: Claim) -> bool
        ensures { result ≡ supported (posed R.meaning self.now) earlier.now (length earlier.now) c }
    {
        let (Some(place), Some(own)) = (index(c.place), index(c.node)) else {
            return false;
        };
        place <= self.trace.len()
            && own < self.nodes.len()
            && c.meets(earlier, self.ways(self.spot(place, own), c.sign))
    }

    // The first claim that is not supported. Claims count from 1.
    fn check_support(&self, claims: &[Claim]) -> Result<(), Fault>
        ensures { result ≡ answer (unsupported (posed R.meaning self.now) claims.now) tt }
    {
        for (i, c) in claims.iter().enumerate() {
            if !self.supports(&claims[..i], *c) {
                return Err(Fault::Unsupported(i + 1));
            }
        }
        Ok(())
    }

    // The last claim, which has to be on the last node, the whole rule, at the first place.
    fn root(&self, claims: &[Claim]) -> Result<Claim, Fault>
        ensures { result ≡ answer (bad_end (node_count self.now.bound.now.rule) claims.now) (last_of claims.now) }
    {
        match claims.last() {
            Some(&last) if last.place == 1 && last.node as usize == self.nodes.len() => Ok(last),
            _ => Err(Fault::BadEnd(claims.len())),
        }
    }

    // The verdict that a list of claims shows.
    fn judge(&self, claims: &[Claim]) -> Result<YesNo, Fault>
        ensures { result ≡ checked (posed R.meaning self.now) claims.now }
    {
        self.check_events()?;
        let root = self.root(claims)?;
        self.check_support(claims)?;
        Ok(root.sign.into())
    }
}

// The verdict that a list of claims shows for a bound rule on a trace. Every claim of a list that is accepted is true, and
// for the verdict that the rule means, and for no other, there is a list that is accepted. An evaluation answers the same.
pub fn check<R: Reading>(
    bound: &BoundRule<R>,
    trace: &[u32],
    claims: &[Claim],
) -> Result<YesNo, Fault>
    ensures answers { result ≡ checked (case_of R.meaning bound.now trace.now) claims.now }
    ensures sound { Sound (case_of R.meaning bound.now trace.now) claims.now }
    ensures exact { Exact (case_of R.meaning bound.now trace.now) }
    ensures evaluated { Evaluated (case_of R.meaning bound.now trace.now) }
{
    Case::new(bound, trace)?.judge(claims)
}
