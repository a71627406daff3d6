// A scale of verdicts, and the scale of two.
ghost use Rattle.std.specs.Prelude.{◌≡◌, Bool, false};
ghost use Rattle.verdicts.specs.Meaning.{constant};
ghost use Rattle.verdicts.specs.Scale.{Ops, Laws};
ghost use Rattle.verdicts.specs.YesNo.{yes_no};
ghost use Rattle.verdicts.specs.declared.scale.YesNo.TheVariants.{Broken};
ghost use Rattle.std.proofs.Common.{rules};

// A distributive lattice with ends, and a negation of which no law is asked.
pub trait Scale: Copy {
    ghost ops: { Ops Self };

    // Whether a letter may be in doubt, and the value of one that is. Where none may be, that is the bottom.
    const TAKES_DOUBT: bool;

    ghost TAKES_DOUBT: { Bool };

    ghost doubtful: { Self };

    fn doubt() -> Self
        ensures { result ≡ doubtful };

    fn bottom() -> Self
        ensures { result ≡ ops.bottom };

    fn top() -> Self
        ensures { result ≡ ops.top };

    fn meet(self, other: Self) -> Self
        ensures { result ≡ ops.meet self other };

    fn join(self, other: Self) -> Self
        ensures { result ≡ ops.join self other };

    fn negate(self) -> Self
        ensures { result ≡ ops.negate self };

    ghost lattice: { Laws ops };

    ghost doubtless: { TAKES_DOUBT ≡ false → doubtful ≡ ops.bottom };
}

// Whether a rule is kept. In rising order.
#[derive(Clone, Copy, PartialEq, Eq, PartialOrd, Ord, Debug)]
pub enum YesNo {
    Broken,
    Kept,
}

impl From<bool> for YesNo {
    ghost from_gives = { λ kept v. v ≡ constant yes_no kept };

    fn from(kept: bool) -> Self {
        if kept { Self::Kept } else { Self::Broken }
    }
}

impl Scale for YesNo {
    ghost ops = { yes_no };

    const TAKES_DOUBT: bool = false;

    ghost TAKES_DOUBT = { false };

    ghost doubtful = { Broken };

    ghost lattice = { Prim.search rules };

    ghost doubtless = { Prim.search rules };

    fn doubt() -> Self {
        Self::bottom()
    }

    fn bottom() -> Self {
        Self::from(false)
    }

    fn top() -> Self {
        Self::from(true)
    }

    fn meet(self, other: Self) -> Self {
        self.min(other)
    }

    fn join(self, other: Self) -> Self {
        self.max(other)
    }

    fn negate(self) -> Self {
        match self {
            Self::Broken => Self::Kept,
            Self::Kept => Self::Broken,
        }
    }
}
