// The scale of three verdicts, for letters that may be in doubt.
ghost use Rattle.std.specs.Prelude.{◌≡◌, true};
ghost use Rattle.verdicts.specs.ThreeWay.{three_way, in_three};
ghost use Rattle.verdicts.specs.declared.three_way.ThreeWay.TheVariants.{Unclear};
ghost use Rattle.std.proofs.Common.{rules};

use crate::scale::{Scale, YesNo};

// Whether a rule is kept, where that can be told. In rising order.
#[derive(Clone, Copy, PartialEq, Eq, PartialOrd, Ord, Debug)]
pub enum ThreeWay {
    Broken,
    Unclear,
    Kept,
}

// The same verdict on the scale of three.
impl From<YesNo> for ThreeWay {
    ghost from_gives = { λ x y. y ≡ in_three x };

    fn from(verdict: YesNo) -> Self {
        match verdict {
            YesNo::Broken => Self::Broken,
            YesNo::Kept => Self::Kept,
        }
    }
}

impl YesNo {
    // The same, as a method.
    pub fn three_way(self) -> ThreeWay
        ensures { result ≡ in_three self }
    {
        self.into()
    }
}

impl Scale for ThreeWay {
    ghost ops = { three_way };

    const TAKES_DOUBT: bool = true;

    ghost TAKES_DOUBT = { true };

    ghost doubtful = { Unclear };

    ghost lattice = { Prim.search rules };

    ghost doubtless = { Prim.search rules };

    fn doubt() -> Self {
        Self::Unclear
    }

    fn bottom() -> Self {
        Self::Broken
    }

    fn top() -> Self {
        Self::Kept
    }

    fn meet(self, other: Self) -> Self {
        self.min(other)
    }

    fn join(self, other: Self) -> Self {
        self.max(other)
    }

    fn negate(self) -> Self {
        match self {
            Self::Broken => Self::Kept,
            Self::Unclear => Self::Unclear,
            Self::Kept => Self::Broken,
        }
    }
}
