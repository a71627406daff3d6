// The judge again, written apart from the library and sharing nothing with it: plain and slow, by the quantifiers of the
// meaning. It is there to be compared with.
#![tactic(auto)]

mod book;
mod bound;
mod claims;
mod file;
mod formula;
mod grade;
mod meaning;
mod numbered;
mod reading;
mod refusal;
mod residue;
mod rests;
mod scan;
mod set;
mod sign;

pub use book::{Asked, Book, Finality, Told, count_obligations, open_book};
pub use bound::Bound;
pub use claims::{Claimed, Said};
pub use file::report;
pub use formula::{Formula, Letter, Node, read_formula};
pub use grade::Grade;
pub use meaning::{Record, Values};
pub use reading::{Kind, Reading};
pub use refusal::{Layer, Reason, Refusal, Stop};
pub use residue::is_term;
pub use set::Set;
pub use sign::{Infix, Prefix, Sign};
