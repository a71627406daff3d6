// The rules of support, as code. Places and nodes count from 0 here: place n is the empty rest.
ghost use Rattle.std.specs.Prelude.{◌≡◌, ◌+◌, ◌<◌};
ghost use Rattle.rules.specs.Rules.{letter_count};
ghost use Rattle.claims.specs.Ways.{fact, only, all, any, alike, comes, before_ways, between_ways, letter_at, ways_at};
ghost use Rattle.claims.specs.Posed.{posed, Lies};
ghost use Rattle.claims.specs.declared.claim.Sign.TheVariants.{Holds};

use crate::case::Case;
use crate::claim::Sign;
use crate::grounds::{Fact, Grounds, Ways};
use crate::spot::Spot;
use readings::{Mark, Reading};
use rules::{Binary, Node, Unary};
use verdicts::YesNo;

// A value that is known.
fn known(value: YesNo, sign: Sign) -> Ways
    ensures { result ≡ only value sign }
{
    if value == sign.into() {
        Ways::By(Grounds::Nothing)
    } else {
        Ways::Never
    }
}

// Below, `x`, `y` and `z` are the facts that a node joins, and the sign says whether the node is to hold or to fail.

// Both of two facts.
fn both(x: Fact, y: Fact, sign: Sign) -> Ways
    ensures { result ≡ all x y sign }
{
    match sign {
        Sign::Holds => Ways::By(Grounds::Both(x, y)),
        Sign::Fails => Ways::Either(Grounds::One(!x), Grounds::One(!y)),
    }
}

// One of two facts: it fails as both of their opposites hold.
fn either(x: Fact, y: Fact, sign: Sign) -> Ways
    ensures { result ≡ any x y sign }
{
    both(!x, !y, !sign)
}

// Both or neither of two facts.
fn same(x: Fact, y: Fact, sign: Sign) -> Ways
    ensures { result ≡ alike x y sign }
{
    match sign {
        Sign::Holds => Ways::Either(Grounds::Both(x, y), Grounds::Both(!x, !y)),
        Sign::Fails => Ways::Either(Grounds::Both(x, !y), Grounds::Both(!x, y)),
    }
}

// The second fact, or the first with the third.
fn until(x: Fact, y: Fact, z: Fact, sign: Sign) -> Ways
    ensures { result ≡ comes x y z sign }
{
    match sign {
        Sign::Holds => Ways::Either(Grounds::One(y), Grounds::Both(x, z)),
        Sign::Fails => Ways::Either(Grounds::Both(!y, !x), Grounds::Both(!y, !z)),
    }
}

impl Spot {
    // That node `a` holds at the same place.
    fn operand(self, a: u8) -> Fact
        ensures { result ≡ fact self.place a Holds }
    {
        Fact {
            place: self.place,
            node: a as usize,
            sign: Sign::Holds,
        }
    }

    // That the node holds at the next place.
    fn later(self) -> Fact
        ensures { result ≡ fact (self.place + 1) self.own Holds }
    {
        Fact {
            place: self.place + 1,
            node: self.own,
            sign: Sign::Holds,
        }
    }

    // An operator before node `a`.
    fn before(self, operator: Unary, a: u8, sign: Sign) -> Ways
        ensures { result ≡ before_ways self.event self.place self.own operator a sign }
    {
        let x = self.operand(a);
        match operator {
            Unary::Not => Ways::By(Grounds::One(Fact { sign: !sign, ..x })),
            Unary::Always if self.event => both(x, self.later(), sign),
            Unary::Always => known(YesNo::Kept, sign),
            Unary::Eventually if self.event => either(x, self.later(), sign),
            Unary::Next if self.event => Ways::By(Grounds::One(Fact {
                place: self.place + 1,
                sign,
                ..x
            })),
            Unary::Eventually | Unary::Next => known(YesNo::Broken, sign),
        }
    }

    // An operator between nodes `a` and `b`.
    fn between(self, operator: Binary, a: u8, b: u8, sign: Sign) -> Ways
        ensures { result ≡ between_ways self.event self.place self.own operator a b sign }
    {
        let x = self.operand(a);
        let y = self.operand(b);
        match operator {
            Binary::Until if self.event => until(x, y, self.later(), sign),
            Binary::Until => known(YesNo::Broken, sign),
            Binary::And => both(x, y, sign),
            Binary::Xor => same(x, !y, sign),
            Binary::Or => either(x, y, sign),
            Binary::Implies => either(!x, y, sign),
            Binary::Iff => same(x, y, sign),
        }
    }
}

impl<'a, R: Reading> Case<'a, R> {
    // Letter `l` at a place: off at the empty rest.
    fn letter(&self, place: usize, l: u8) -> YesNo
        requires { l < letter_count self.now.bound.now.rule }
        ensures { result ≡ letter_at (posed R.meaning self.now) place l }
    {
        let Some(&code) = self.trace.get(place) else {
            return YesNo::Broken;
        };
        let number = self.numbers[l as usize];
        YesNo::from(self.bound.reading().mark(code, number) == Mark::On)
    }

    // What a node at a place can rest on to hold, or to fail.
    pub(crate) fn ways(&self, spot: Spot, sign: Sign) -> Ways
        requires { Lies (posed R.meaning self.now) spot }
        ensures { result ≡ ways_at (posed R.meaning self.now) spot.place spot.own sign }
    {
        match self.nodes[spot.own] {
            Node::Letter(l) => known(self.letter(spot.place, l), sign),
            Node::Truth(value) => known(value.into(), sign),
            Node::Before(operator, a) => spot.before(operator, a, sign),
            Node::Between(operator, a, b) => spot.between(operator, a, b, sign),
        }
    }
}
