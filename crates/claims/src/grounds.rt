// What a claim can rest on. Places and nodes count from 0 here, as in the table of nodes: place n is the empty rest.
ghost use Rattle.std.specs.Prelude.{◌≡◌};
ghost use Rattle.claims.specs.Ways.{turned};
ghost use Rattle.claims.specs.Any.{ToEach, AnyOf};

use crate::claim::Sign;
use std::ops::Not;

// That a node holds, or fails, at a place.
#[derive(Clone, Copy)]
pub struct Fact {
    pub(crate) place: usize,
    pub(crate) node: usize,
    pub(crate) sign: Sign,
}

impl Not for Fact {
    type Output = Fact;

    ghost not_gives = { λ x r. r ≡ turned x };

    fn not(self) -> Fact {
        Fact {
            sign: !self.sign,
            ..self
        }
    }
}

// No fact, one, or two in this order. As an Option it would nest: `Some((x, Some(y)))`.
#[derive(Clone, Copy)]
pub enum Grounds {
    Nothing,
    One(Fact),
    Both(Fact, Fact),
}

// The grounds that each suffice, the preferred first. As an Option it would nest likewise.
#[derive(Clone, Copy)]
pub enum Ways {
    Never,
    By(Grounds),
    Either(Grounds, Grounds),
}

impl Ways {
    // Whether some of the grounds pass a test.
    pub(crate) fn any<F: Fn(Grounds) -> bool>(self, test: F) -> bool
        requires { ToEach (F.pre test) self }
        ensures { AnyOf (F.post test) self result }
    {
        match self {
            Ways::Never => false,
            Ways::By(g) => test(g),
            // both are asked, as AnyOf says
            Ways::Either(g, h) => test(g) | test(h),
        }
    }
}
