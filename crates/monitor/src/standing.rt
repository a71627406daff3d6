// What a monitor says of the events that stand.
ghost use Rattle.std.specs.Prelude.{◌≡◌, if◌then◌else◌};
ghost use Rattle.monitor.specs.declared.standing.Finality.TheVariants.{SoFar, ForGood};

use polynomials::Residual;
use verdicts::YesNo;

// Whether later events can change the verdict.
#[derive(Clone, Copy, PartialEq, Eq, Debug)]
pub enum Finality {
    SoFar,
    ForGood,
}

impl From<bool> for Finality {
    ghost from_gives = { λ settled finality. finality ≡ (if settled then ForGood else SoFar) };

    fn from(settled: bool) -> Self {
        if settled { Self::ForGood } else { Self::SoFar }
    }
}

// The verdict, how many events stand, and what is left of the rule.
#[derive(Clone, Copy, PartialEq, Eq)]
pub struct Standing {
    pub verdict: YesNo,
    pub finality: Finality,
    pub count: usize,
    pub residual: Residual,
}
