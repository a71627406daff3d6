// A point of a trace.
ghost use Rattle.std.specs.Prelude.{◌≤◌};

use polynomials::Residual;

// How many events came before, and what they left of the rule.
#[derive(Clone, Copy)]
pub struct Point {
    pub(crate) count: usize,
    pub(crate) residual: Residual,
    ghost short: { count ≤ 4095 },
}
