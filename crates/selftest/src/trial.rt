// What verdicts and claims are compared on.
use readings::BoundRule;
use reference::{Bound, Record};

// A rule that is bound in the library and in the reference, a trace, and the reference's record of it.
#[derive(Drop)]
pub struct Trial<'a, R> {
    pub ours: BoundRule<R>,
    pub plain: &'a Bound,
    pub trace: &'a [u32],
    pub record: Record,
}
