// A log file: its lines, and the report on it.
#![tactic(auto)]

mod answer;
mod claim_lines;
mod decimal;
mod display;
mod event_lines;
mod header;
mod judgement;
mod lines;
mod log;
mod logged;
mod stop;

pub use answer::{Answer, Report};
pub use judgement::{MOST_BYTES, judge, report};
