// The whole agreement: a monitor, an evaluation and a list of claims never say different things of the same events.
#![tactic(auto)]

mod replaying;

pub use replaying::replay;
