// Readings: what an event's code says of the names that a rule is about.
#![tactic(auto)]

mod binding;
mod bound;
mod listed;
mod mark;
mod named;
mod names;
mod panel;
mod panel_reading;
mod reading;
mod set;
mod words;
mod words_reading;

pub use bound::BoundRule;
pub use mark::Mark;
pub use named::Named;
pub use panel::Panel;
pub use reading::Reading;
pub use set::has;
pub use words::Words;
