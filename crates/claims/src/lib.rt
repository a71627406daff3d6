// Claims for the verdict of a rule on a trace: what supports them, and their check and writing.
#![tactic(auto)]

mod case;
mod checking;
mod claim;
mod grounds;
mod so_far;
mod spot;
mod support;
mod writing;

pub use checking::check;
pub use claim::{Claim, Sign};
pub use writing::write;
