// The signs of a rule text.
use crate::refusal::{Reason, Refusal};

// An operator before its operand.
#[derive(Clone, Copy, PartialEq, Eq, Debug)]
pub enum Prefix {
    Not,
    Always,
    Eventually,
    Next,
}

// An operator between its operands. The earlier ones here bind tighter.
#[derive(Clone, Copy, PartialEq, Eq, PartialOrd, Ord, Debug)]
pub enum Infix {
    Until,
    And,
    Xor,
    Or,
    Implies,
    Iff,
}

impl Infix {
    pub(crate) fn groups_right(self) -> bool {
        matches!(self, Infix::Until | Infix::Implies)
    }
}

#[derive(Clone, Copy, PartialEq, Eq, Debug)]
pub enum Sign {
    Name,
    Truth(bool),
    Open,
    Close,
    Prefix(Prefix),
    Infix(Infix),
}

// A sign, the byte of the text where it begins, and its spelling.
#[derive(Clone, Copy)]
pub struct Token<'a> {
    pub sign: Sign,
    pub at: usize,
    pub text: &'a [u8],
}

// The signs that are no words. No spelling begins another but for `<->`, which is not begun by `<>`.
const SPELLED: [(Sign, &[u8]); 10] = [
    (Sign::Prefix(Prefix::Not), b"!"),
    (Sign::Open, b"("),
    (Sign::Close, b")"),
    (Sign::Prefix(Prefix::Always), b"[]"),
    (Sign::Prefix(Prefix::Eventually), b"<>"),
    (Sign::Infix(Infix::Iff), b"<->"),
    (Sign::Infix(Infix::Implies), b"->"),
    (Sign::Infix(Infix::Xor), b"++"),
    (Sign::Infix(Infix::And), b"/\\"),
    (Sign::Infix(Infix::Or), b"\\/"),
];

pub fn is_inner(b: u8) -> bool {
    b.is_ascii_alphanumeric() || b == b'_'
}

pub fn is_blank(b: u8) -> bool {
    matches!(b, b' ' | b'\t')
}

pub(crate) fn begins_word(text: &[u8]) -> bool {
    text.first().is_some_and(|b| b.is_ascii_alphabetic())
}

// Which word this is.
pub fn word_sign(word: &[u8]) -> Sign {
    match word {
        b"true" => Sign::Truth(true),
        b"false" => Sign::Truth(false),
        b"o" => Sign::Prefix(Prefix::Next),
        b"U" => Sign::Infix(Infix::Until),
        _ => Sign::Name,
    }
}

// The word that begins a part of the text, which begins at a byte of it.
fn word_at(rest: &[u8], at: usize) -> Result<Token<'_>, Refusal> {
    let text = rest.split(|b| !is_inner(*b)).next().unwrap_or(rest);
    let sign = word_sign(text);
    if sign == Sign::Name && text.len() > 12 {
        return Err(Reason::LongName.at(at));
    }
    Ok(Token { sign, at, text })
}

// The sign that begins at a byte that is not blank.
pub fn token_at(text: &[u8], at: usize) -> Result<Token<'_>, Refusal> {
    let rest = text.get(at..).unwrap_or(&[]);
    if begins_word(rest) {
        return word_at(rest, at);
    }
    let (sign, text) = SPELLED
        .into_iter()
        .find(|(_, spelling)| rest.starts_with(spelling))
        .ok_or(Reason::NoSign.at(at))?;
    Ok(Token { sign, at, text })
}
