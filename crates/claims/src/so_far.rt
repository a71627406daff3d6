// What the claims that are written so far show.
ghost use Rattle.std.specs.Prelude.{◌+◌, ◌*◌, ◌<◌, length};
ghost use Rattle.rules.specs.declared.rule.TheConstants.{MOST_NODES};
ghost use Rattle.verdicts.specs.declared.events.TheConstants.{MOST_EVENTS};

use crate::claim::{Claim, Sign};
use crate::grounds::{Fact, Grounds, Ways};
use crate::spot::Spot;

// The claims of a case with n events and m nodes that are written so far. That one of them is on a fact is asked at each
// call: it is of the fact and the claims together, so no field of either says it.
#[derive(Clone, Copy)]
pub struct SoFar<'a> {
    pub(crate) n: usize,
    pub(crate) m: usize,
    pub(crate) claims: &'a [Claim],
    ghost room: { length claims.now < (MOST_EVENTS + 1) * MOST_NODES },
}

impl<'a> SoFar<'a> {
    ghost use Rattle.std.specs.Prelude.{◌≡◌};
    ghost use Rattle.claims.specs.Ways.{is_true, stands, given};
    ghost use Rattle.claims.specs.Written.{index, number, chosen, claim_on, OfGrounds, OfWays};
    ghost use Rattle.claims.specs.Told.{told, Known};

    // The index of the claim on a fact.
    fn index(&self, x: Fact) -> usize
        requires { Known self.now x }
        ensures { result ≡ index self.now.n self.now.m x.place x.node }
    {
        (self.n - x.place) * self.m + x.node
    }

    // Whether the claims show that a fact is true.
    fn shows(&self, x: Fact) -> bool
        requires { Known self.now x }
        ensures { result ≡ is_true (told self.now) x }
    {
        x.sign == self.claims[self.index(x)].sign
    }

    fn shows_all(&self, grounds: Grounds) -> bool
        requires { OfGrounds (Known self.now) grounds }
        ensures { result ≡ stands (told self.now) grounds }
    {
        match grounds {
            Grounds::Nothing => true,
            Grounds::One(x) => self.shows(x),
            Grounds::Both(x, y) => self.shows(x) && self.shows(y),
        }
    }

    pub(crate) fn shows_some(&self, w: Ways) -> bool
        requires { OfWays (Known self.now) w }
        ensures { result ≡ given (told self.now) w }
    {
        w.any(|g| self.shows_all(g))
    }

    pub(crate) fn choose(&self, w: Ways) -> Grounds
        requires { OfWays (Known self.now) w }
        ensures { result ≡ chosen (told self.now) w }
    {
        match w {
            Ways::Never => Grounds::Nothing,
            Ways::By(g) => g,
            Ways::Either(g, h) => if self.shows_all(g) { g } else { h },
        }
    }

    // The number of the claim on a fact.
    fn number(&self, x: Fact) -> u32
        requires { Known self.now x }
        ensures { result ≡ number self.now.n self.now.m x }
    {
        self.index(x) as u32 + 1
    }

    // The claim on a node at a place, with a sign and the grounds for it.
    pub(crate) fn claim_on(&self, spot: Spot, sign: Sign, grounds: Grounds) -> Claim
        requires { OfGrounds (Known self.now) grounds }
        ensures { result ≡ claim_on self.now.n self.now.m spot.place spot.own sign grounds }
    {
        let (first, second) = match grounds {
            Grounds::Nothing => (0, 0),
            Grounds::One(x) => (self.number(x), 0),
            Grounds::Both(x, y) => (self.number(x), self.number(y)),
        };
        Claim {
            place: spot.place as u32 + 1,
            node: spot.own as u32 + 1,
            sign,
            first,
            second,
        }
    }
}
