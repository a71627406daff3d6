// What a text is made of, and why its reading stops.
use crate::name::Name;
use crate::node::{Binary, Unary};

// What a byte can be.
#[derive(Clone, Copy, PartialEq, Eq, Debug)]
pub enum Class {
    Letter,
    Digit,
    Blank,
    Mark,
    Other,
}

// No derived ==, since names have none.
#[derive(Clone, Copy, Debug)]
pub enum Sign {
    Before(Unary),
    Between(Binary),
    Truth(bool),
    Name(Name),
    Open,
    Close,
    End,
}

#[derive(Clone, Copy, PartialEq, Eq, Debug)]
pub enum Why {
    NoSign,
    LongName,
    Misplaced,
    DeepNesting,
    ManyNodes,
    ManyLetters,
}

// Why the reading stops, and how many bytes are left there.
#[derive(Clone, Copy, PartialEq, Eq, Debug)]
pub struct Stop {
    pub why: Why,
    pub left: usize,
}
