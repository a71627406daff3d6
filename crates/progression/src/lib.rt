// Progression: what is left of a rule after an event, as a polynomial in the values that its obligations will have on the rest.
#![tactic(auto)]

mod find;
mod operators;
mod plan;
mod planned;
mod step;
mod transitions;

pub use plan::{MOST_OBLIGATIONS, Plan};
pub use transitions::Transitions;
