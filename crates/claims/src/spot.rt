// A node at a place of a trace.
ghost use Rattle.std.specs.Prelude.{◌<◌, ◌≤◌};
ghost use Rattle.rules.specs.declared.rule.TheConstants.{MOST_NODES};
ghost use Rattle.verdicts.specs.declared.events.TheConstants.{MOST_EVENTS};

// Node `own` at a place, and whether the place is an event. Both count from 0: place n is the empty rest.
#[derive(Clone, Copy)]
pub struct Spot {
    pub(crate) place: usize,
    pub(crate) own: usize,
    pub(crate) event: bool,
    ghost low: { place ≤ MOST_EVENTS },
    ghost within: { own < MOST_NODES },
}
