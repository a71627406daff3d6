// The signs of a text.
ghost use Rattle.std.specs.Prelude.{◌≡◌, ◌≤◌, length, MatchResult};
ghost use Rattle.rules.specs.Signs.{skipped, run, marked, reserved_of, name_of, worded, lex, sign, bad};

use crate::class::in_word;
use crate::name::{NAME_BYTES, Name};
use crate::node::{Binary, Unary};
use crate::sign::{Class, Sign, Stop, Why};

// The text from its first byte that is not blank.
pub(crate) fn skip(mut s: &[u8]) -> &[u8]
    ensures { result.now ≡ skipped s.now }
{
    while let [b, rest @ ..] = s
        && Class::from(*b) == Class::Blank
    {
        s = rest;
    }
    s
}

// How many bytes at the front belong to one word.
pub(crate) fn run_len(s: &[u8]) -> usize
    ensures { result ≡ run s.now }
{
    s.iter().take_while(|b| in_word(**b)).count()
}

// The sign other than a word at the front.
fn mark(s: &[u8]) -> Result<(Sign, &[u8]), Stop>
    ensures { MatchResult result (λ p. marked s.now ≡ sign p.0 p.1.now) (λ f. marked s.now ≡ bad f) }
{
    match s {
        [b'!', rest @ ..] => Ok((Sign::Before(Unary::Not), rest)),
        [b'(', rest @ ..] => Ok((Sign::Open, rest)),
        [b')', rest @ ..] => Ok((Sign::Close, rest)),
        [b'[', b']', rest @ ..] => Ok((Sign::Before(Unary::Always), rest)),
        [b'<', b'>', rest @ ..] => Ok((Sign::Before(Unary::Eventually), rest)),
        [b'<', b'-', b'>', rest @ ..] => Ok((Sign::Between(Binary::Iff), rest)),
        [b'-', b'>', rest @ ..] => Ok((Sign::Between(Binary::Implies), rest)),
        [b'+', b'+', rest @ ..] => Ok((Sign::Between(Binary::Xor), rest)),
        [b'/', b'\\', rest @ ..] => Ok((Sign::Between(Binary::And), rest)),
        [b'\\', b'/', rest @ ..] => Ok((Sign::Between(Binary::Or), rest)),
        _ => Err(Stop::here(Why::NoSign, s)),
    }
}

// The sign that a reserved word is.
pub(crate) fn reserved(w: &[u8]) -> Option<Sign>
    ensures { result ≡ reserved_of w.now }
{
    match w {
        b"true" => Some(Sign::Truth(true)),
        b"false" => Some(Sign::Truth(false)),
        b"o" => Some(Sign::Before(Unary::Next)),
        b"U" => Some(Sign::Between(Binary::Until)),
        _ => None,
    }
}

impl Name {
    // The name that a word spells.
    pub(crate) fn copied(word: &[u8]) -> Name
        requires { length word.now ≤ NAME_BYTES }
        ensures { result ≡ name_of (length word.now) word.now }
    {
        let mut bytes = [0; NAME_BYTES];
        bytes[..word.len()].copy_from_slice(word);
        Name {
            bytes,
            len: word.len() as u8,
        }
    }
}

fn word(s: &[u8]) -> Result<(Sign, &[u8]), Stop>
    ensures { MatchResult result (λ p. worded s.now ≡ sign p.0 p.1.now) (λ f. worded s.now ≡ bad f) }
{
    let (w, rest) = s.split_at(run_len(s));
    if let Some(m) = reserved(w) {
        return Ok((m, rest));
    }
    if w.len() > NAME_BYTES {
        return Err(Stop::here(Why::LongName, s));
    }
    Ok((Sign::Name(Name::copied(w)), rest))
}

// The next sign, and what is behind it.
#[tactic(auto, unfolding(crate::specs::Signs::lex))]
pub(crate) fn next_sign(s: &[u8]) -> Result<(Sign, &[u8]), Stop>
    ensures { MatchResult result (λ p. lex s.now ≡ sign p.0 p.1.now) (λ f. lex s.now ≡ bad f) }
{
    match skip(s) {
        [] => Ok((Sign::End, &[])),
        s @ [b, ..] if Class::from(*b) == Class::Letter => word(s),
        s => mark(s),
    }
}
