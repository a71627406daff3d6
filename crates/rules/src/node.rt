// The nodes of a rule.

// What stands before one operand.
#[derive(Clone, Copy, PartialEq, Eq, Debug)]
pub enum Unary {
    Not,
    Always,
    Eventually,
    Next,
}

// What stands between two operands.
#[derive(Clone, Copy, PartialEq, Eq, Debug)]
pub enum Binary {
    Until,
    And,
    Xor,
    Or,
    Implies,
    Iff,
}

// One node: a letter by its number, a constant, or an operator over nodes that stand before it. Numbers count from 0.
#[derive(Clone, Copy, PartialEq, Eq, Debug)]
pub enum Node {
    Letter(u8),
    Truth(bool),
    Before(Unary, u8),
    Between(Binary, u8, u8),
}
