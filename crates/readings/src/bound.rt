// A rule with the number that its reading gives each letter. Only such a rule can be judged on a trace.
// The numbers are an array as long as a rule can need, since the library has no heap.
use rules::{MOST_LETTERS, Rule};

#[derive(Drop)]
pub struct BoundRule<R> {
    pub(crate) reading: R,
    pub(crate) rule: Rule,
    pub(crate) numbers: [u8; MOST_LETTERS],
}
