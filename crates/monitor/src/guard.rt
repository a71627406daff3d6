// A look ahead: the residual is that after one event more while the guard lives, and is restored when it is dropped.
ghost use Rattle.std.specs.Prelude.{◌≡◌, ◌≤◌};
ghost use Rattle.polynomials.specs.Polynomial.{Polynomial, substitute};
ghost use Rattle.progression.specs.Progress.{change};
ghost use Rattle.progression.specs.Tables.{StandsFor};
ghost use Rattle.monitor.specs.Standings.{TellsAt};

use crate::point::Point;
use crate::setup::Setup;
use crate::standing::Standing;
use polynomials::Residual;

pub(crate) struct Ahead<'a> {
    residual: &'a mut Residual,
    saved: Residual,
}

impl<'a> Ahead<'a> {
    pub(crate) fn new(residual: &'a mut Residual, setup: &Setup, letters: u8) -> Ahead<'a>
        ensures saved { result.saved ≡ residual.old }
        ensures stepped { (P : Polynomial) → StandsFor residual.old P → StandsFor result.residual.now (substitute P (change setup.now.plan.rule letters)) }
        ensures lent { result.residual.ghost_name ≡ residual.entry.ghost_name }
    {
        let saved = *residual;
        *residual = setup.plan.after(saved, letters);
        Ahead { residual, saved }
    }

    pub(crate) fn standing(&self, setup: &Setup, count: usize) -> Standing
        requires { count ≤ 4095 }
        ensures { TellsAt setup.now count self.now.residual.now result }
    {
        setup.standing(Point {
            count,
            residual: *self.residual,
        })
    }
}

impl Drop for Ahead<'_> {
    fn drop(self)
        ensures { self.exit.0.now ≡ self.entry.saved }
    {
        *self.residual = self.saved;
        let Ahead {
            residual: _,
            saved: _,
        } = self;
    }
}
