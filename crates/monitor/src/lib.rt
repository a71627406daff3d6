// The monitor of a bound rule: after each event it says whether the rule is kept or broken, so far or for good.
#![tactic(auto)]

mod call;
mod guard;
mod inner;
mod marks;
mod monitor;
mod opening;
mod point;
mod serving;
mod setup;
mod standing;

pub use call::Call;
pub use monitor::Monitor;
pub use serving::serve;
pub use standing::{Finality, Standing};
