// Rules of linear temporal logic on finite traces: the text of a rule, and the table of nodes that it is read into.
#![tactic(auto)]

mod access;
mod class;
mod fault;
mod faults;
mod letters;
mod lex;
mod name;
mod names;
mod node;
mod parse;
mod read;
mod rule;
mod sign;
mod spell;
mod spot;
mod stop;

pub use fault::{Fault, Layer};
pub use name::Name;
pub use names::same_name;
pub use node::{Binary, Node, Unary};
pub use rule::{Letter, MOST_LETTERS, MOST_NODES, Rule};
