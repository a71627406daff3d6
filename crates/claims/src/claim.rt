// Claims.
ghost use Rattle.std.specs.Prelude.{◌≡◌};
ghost use Rattle.claims.specs.Ways.{other, verdict_of};
ghost use Rattle.claims.specs.Written.{sign_if};

use std::ops::Not;
use verdicts::YesNo;

// Whether a node is said to hold or to fail.
#[derive(Clone, Copy, PartialEq, Eq, Debug)]
pub enum Sign {
    Holds,
    Fails,
}

impl Not for Sign {
    type Output = Sign;

    ghost not_gives = { λ s r. r ≡ other s };

    fn not(self) -> Sign {
        match self {
            Sign::Holds => Sign::Fails,
            Sign::Fails => Sign::Holds,
        }
    }
}

impl From<bool> for Sign {
    ghost from_gives = { λ holds r. r ≡ sign_if holds };

    fn from(holds: bool) -> Sign {
        if holds { Sign::Holds } else { Sign::Fails }
    }
}

// The verdict that a sign says.
impl From<Sign> for YesNo {
    ghost from_gives = { λ s r. r ≡ verdict_of s };

    fn from(sign: Sign) -> YesNo {
        match sign {
            Sign::Holds => YesNo::Kept,
            Sign::Fails => YesNo::Broken,
        }
    }
}

// That a node of a rule holds, or fails, at a place of a trace. Places count from 1 to n + 1, which is the empty rest of a
// trace of n events; nodes count from 1 to m, which is the whole rule; claims count from 1. `first` and `second` are the
// numbers of the earlier claims that this one rests on, 0 for none: the fields are public, and are printed so.
#[derive(Clone, Copy, PartialEq, Eq, Debug)]
pub struct Claim {
    pub place: u32,
    pub node: u32,
    pub sign: Sign,
    pub first: u32,
    pub second: u32,
}

impl Claim {
    // What a place holds before its claim is written.
    pub const BLANK: Claim = Claim {
        place: 0,
        node: 0,
        sign: Sign::Fails,
        first: 0,
        second: 0,
    };
}
