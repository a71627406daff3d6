// What a rule comes to on a record of events, on any scale of verdicts.
#![tactic(auto)]

mod backward;
mod events;
mod scale;
mod step;
mod three_way;
mod valuation;

pub use backward::{TWO_ROWS, evaluate};
pub use events::{MOST_EVENTS, admitted, check_events};
pub use scale::{Scale, YesNo};
pub use three_way::ThreeWay;
pub use valuation::valuate;
