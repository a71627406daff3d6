// Where a rule is read: in a text of `total` bytes, inside `depth` parentheses, with `pending` nodes to come before the rule is whole.
// The bytes that are left and the table are not in it: they change from sign to sign.
#[derive(Clone, Copy, PartialEq, Eq, Debug)]
pub struct Spot {
    pub total: usize,
    pub depth: usize,
    pub pending: usize,
}
