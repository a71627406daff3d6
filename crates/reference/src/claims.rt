// Claims: which are supported, and those that are written.
ghost use Rattle.std.specs.Prelude.{◌≡◌, Some};
ghost use Rattle.reference.specs.Cases.{contrary};
ghost use Rattle.reference.specs.Printed.{claim_fields};

use crate::formula::{Formula, Node};
use crate::grade::Grade;
use crate::meaning::{Record, Values};
use crate::numbered::numbered;
use crate::refusal::{Reason, Refusal};
use crate::sign::{Infix, Prefix};
use std::alloc::{AllocError, Global};
use std::fmt;
use std::ops::Not;

// What a claim says: whether a node holds at a place.
#[derive(Clone, Copy, PartialEq, Eq, Debug)]
pub struct Said {
    pub place: usize,
    pub node: usize,
    pub holds: bool,
}

impl Said {
    // The like of another node at the same place.
    fn here(self, node: usize, holds: bool) -> Said {
        Said {
            place: self.place,
            node,
            holds,
        }
    }

    // The like of a node at the next place.
    fn after(self, node: usize, holds: bool) -> Said {
        Said {
            place: self.place.saturating_add(1),
            node,
            holds,
        }
    }
}

// The contrary.
impl Not for Said {
    type Output = Said;

    ghost not_gives = { λ s r. r ≡ contrary s };

    fn not(self) -> Said {
        Said {
            holds: !self.holds,
            ..self
        }
    }
}

// A claim, and the numbers of those that it rests on.
#[derive(Clone, Copy, PartialEq, Eq, Debug)]
pub struct Claimed {
    pub said: Said,
    pub first: Option<usize>,
    pub second: Option<usize>,
}

impl fmt::Display for Claimed {
    ghost output = { λ c. Some (claim_fields c) };

    fn fmt<W: fmt::Write>(&self, f: &mut fmt::Formatter<W>) -> fmt::Result {
        let place = self.said.place;
        let node = self.said.node;
        let holds = u8::from(self.said.holds);
        let first = self.first.unwrap_or(0);
        let second = self.second.unwrap_or(0);
        write!(f, "{place}\t{node}\t{holds}\t{first}\t{second}")
    }
}

// The claims before one, and that one.
#[derive(Clone, Copy)]
struct Case<'a> {
    record: &'a Record,
    earlier: &'a [Claimed],
    claim: Claimed,
}

impl Case<'_> {
    // Whether the earlier claim of this number says this.
    fn says(&self, number: Option<usize>, said: Said) -> bool {
        number
            .and_then(|n| numbered(self.earlier, n))
            .is_some_and(|c| c.said == said)
    }

    // Whether the claim rests on nothing, and says that its node holds or not.
    fn bare(&self, holds: bool) -> bool {
        self.claim.first.is_none() && self.claim.second.is_none() && self.claim.said.holds == holds
    }

    // Whether it rests on this alone.
    fn one(&self, x: Said) -> bool {
        self.says(self.claim.first, x) && self.claim.second.is_none()
    }

    // Whether it rests on these two.
    fn two(&self, x: Said, y: Said) -> bool {
        self.says(self.claim.first, x) && self.says(self.claim.second, y)
    }

    // A node with the value `both` exactly if x and y are so.
    fn joined(&self, x: Said, y: Said, both: bool) -> bool {
        if self.claim.said.holds == both {
            self.two(x, y)
        } else {
            self.one(!x) || self.one(!y)
        }
    }

    // Two operands with the same value if `same`, else with two values.
    fn matched(&self, x: usize, y: usize, same: bool) -> bool {
        let c = self.claim.said;
        self.two(c.here(x, true), c.here(y, same)) || self.two(c.here(x, false), c.here(y, !same))
    }

    fn until(&self, x: usize, y: usize) -> bool {
        let c = self.claim.said;
        let next = c.after(c.node, c.holds);
        if c.holds {
            self.one(c.here(y, true)) || self.two(c.here(x, true), next)
        } else {
            self.two(c.here(y, false), c.here(x, false)) || self.two(c.here(y, false), next)
        }
    }

    // Whether the claim is about the empty rest.
    fn at_rest(&self) -> bool {
        self.claim.said.place > self.record.events.len()
    }

    fn prefix(&self, prefix: Prefix, x: usize) -> bool {
        let c = self.claim.said;
        match prefix {
            Prefix::Not => self.one(c.here(x, !c.holds)),
            _ if self.at_rest() => self.bare(prefix == Prefix::Always),
            Prefix::Next => self.one(c.after(x, c.holds)),
            Prefix::Always => self.joined(c.here(x, true), c.after(c.node, true), true),
            Prefix::Eventually => self.joined(c.here(x, false), c.after(c.node, false), false),
        }
    }

    fn infix(&self, infix: Infix, x: usize, y: usize) -> bool {
        let c = self.claim.said;
        match infix {
            Infix::And => self.joined(c.here(x, true), c.here(y, true), true),
            Infix::Or => self.joined(c.here(x, false), c.here(y, false), false),
            Infix::Implies => self.joined(c.here(x, true), c.here(y, false), false),
            Infix::Xor => self.matched(x, y, !c.holds),
            Infix::Iff => self.matched(x, y, c.holds),
            Infix::Until if self.at_rest() => self.bare(false),
            Infix::Until => self.until(x, y),
        }
    }

    // Whether the claim, which is about this node, is supported.
    fn supported(&self, node: Node) -> bool {
        match node {
            Node::Letter(letter) => {
                self.bare(self.record.mark(self.claim.said.place, letter) == Grade::Kept)
            }
            Node::Truth(value) => self.bare(value),
            Node::Prefix(prefix, x) => self.prefix(prefix, x),
            Node::Infix(infix, x, y) => self.infix(infix, x, y),
        }
    }

    // Whether it is about a node of the rule at a place of the record, and is supported.
    fn accepted(&self, formula: &Formula) -> bool {
        let c = self.claim.said;
        (1..=self.record.places()).contains(&c.place)
            && numbered(formula.nodes.as_slice(), c.node).is_some_and(|n| self.supported(*n))
    }
}

impl Formula {
    // CHECKS a list of claims on a record: whether the rule is kept.
    pub fn check_claims(&self, record: &Record, claims: &[Claimed]) -> Result<bool, Refusal> {
        let last = claims.last().ok_or(Reason::BadEnd.at(0))?.said;
        if last.node != self.root() || last.place != 1 {
            return Err(Reason::BadEnd.at(claims.len()));
        }
        for (i, claim) in claims.iter().enumerate() {
            let case = Case {
                record,
                earlier: &claims[..i],
                claim: *claim,
            };
            if !case.accepted(self) {
                return Err(Reason::Unsupported.at(i.saturating_add(1)));
            }
        }
        Ok(last.holds)
    }

    // WRITES the claims on all nodes at all places of a record.
    pub fn write_claims(&self, heap: Global, record: &Record) -> Result<Vec<Claimed>, AllocError> {
        let values = self.values(heap, record)?;
        let writer = Writer {
            root: self.root(),
            values: &values,
            events: record.events.len(),
        };
        let mut out = Vec::new(heap);
        for place in (1..=record.places()).rev() {
            for (i, node) in self.nodes.iter().enumerate() {
                out.push(writer.claim(place, i.saturating_add(1), *node))?;
            }
        }
        Ok(out)
    }
}

// The numbers of the claims that one rests on.
type Grounds = (Option<usize>, Option<usize>);

// What a written list is made from. The checker and the writer are apart, so that one tests the other.
#[derive(Clone, Copy)]
struct Writer<'a> {
    root: usize,
    values: &'a Values,
    events: usize,
}

impl Writer<'_> {
    fn is_so(&self, said: Said) -> bool {
        self.values.holds(said.node, said.place) == said.holds
    }

    // The number of the claim on a node at a place.
    fn number(&self, said: Said) -> usize {
        let before = self.events.saturating_add(1).saturating_sub(said.place);
        before.saturating_mul(self.root).saturating_add(said.node)
    }

    fn one(&self, x: Said) -> Grounds {
        (Some(self.number(x)), None)
    }

    fn two(&self, x: Said, y: Said) -> Grounds {
        (Some(self.number(x)), Some(self.number(y)))
    }

    // A node with the value `both` exactly if x and y are so: else it rests on the first that is not.
    fn joined(&self, c: Said, x: Said, y: Said, both: bool) -> Grounds {
        if c.holds == both {
            self.two(x, y)
        } else if self.is_so(!x) {
            self.one(x)
        } else {
            self.one(y)
        }
    }

    fn until(&self, c: Said, x: usize, y: usize) -> Grounds {
        let next = c.after(c.node, c.holds);
        if self.is_so(c.here(y, true)) {
            self.one(c.here(y, true))
        } else if c.holds {
            self.two(c.here(x, true), next)
        } else if self.is_so(c.here(x, false)) {
            self.two(c.here(y, false), c.here(x, false))
        } else {
            self.two(c.here(y, false), next)
        }
    }

    fn prefix(&self, c: Said, prefix: Prefix, x: usize) -> Grounds {
        match prefix {
            Prefix::Not => self.one(c.here(x, !c.holds)),
            _ if c.place > self.events => (None, None),
            Prefix::Next => self.one(c.after(x, c.holds)),
            Prefix::Always => self.joined(c, c.here(x, true), c.after(c.node, true), true),
            Prefix::Eventually => self.joined(c, c.here(x, false), c.after(c.node, false), false),
        }
    }

    fn infix(&self, c: Said, infix: Infix, x: usize, y: usize) -> Grounds {
        match infix {
            Infix::And => self.joined(c, c.here(x, true), c.here(y, true), true),
            Infix::Or => self.joined(c, c.here(x, false), c.here(y, false), false),
            Infix::Implies => self.joined(c, c.here(x, true), c.here(y, false), false),
            Infix::Xor | Infix::Iff => self.two(c.here(x, true), c.here(y, true)),
            Infix::Until if c.place > self.events => (None, None),
            Infix::Until => self.until(c, x, y),
        }
    }

    // What a claim on this node rests on.
    fn grounds(&self, c: Said, node: Node) -> Grounds {
        match node {
            Node::Letter(_) | Node::Truth(_) => (None, None),
            Node::Prefix(prefix, x) => self.prefix(c, prefix, x),
            Node::Infix(infix, x, y) => self.infix(c, infix, x, y),
        }
    }

    // The claim on a node, which has this number, at a place.
    fn claim(&self, place: usize, number: usize, node: Node) -> Claimed {
        let said = Said {
            place,
            node: number,
            holds: self.values.holds(number, place),
        };
        let (first, second) = self.grounds(said, node);
        Claimed {
            said,
            first,
            second,
        }
    }
}
