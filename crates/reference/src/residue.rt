// What a rule leaves to be met, as a truth table over its obligations.
use crate::formula::{Formula, Node};
use crate::numbered::{number_of, numbered};
use crate::set::Set;
use crate::sign::{Infix, Prefix};
use std::alloc::{AllocError, Global};

// Whether a node looks further ahead than `o`.
fn looks_far(node: Node) -> bool {
    matches!(
        node,
        Node::Prefix(Prefix::Always | Prefix::Eventually, _) | Node::Infix(Infix::Until, _, _)
    )
}

impl Formula {
    // Whether a node, which has this number, is an obligation: the root, an operand of `o`, or one that looks far.
    fn is_obligation(&self, number: usize, node: Node) -> bool {
        let next = Node::Prefix(Prefix::Next, number);
        number == self.root() || looks_far(node) || self.nodes.contains(&next)
    }

    // The numbers of the nodes that are obligations.
    pub(crate) fn obligations(&self, heap: Global) -> Result<Vec<usize>, AllocError> {
        let mut out = Vec::new(heap);
        for (i, node) in self.nodes.iter().enumerate() {
            let number = i.saturating_add(1);
            if self.is_obligation(number, *node) {
                out.push(number)?;
            }
        }
        Ok(out)
    }
}

// Truth values of the first nodes at an event with these letters, and of the obligations on the rest behind it.
#[derive(Drop)]
struct Step<'a> {
    here: Vec<bool>,
    letters: Set,
    obligations: &'a [usize],
    later: Set,
}

impl Step<'_> {
    fn now(&self, j: usize) -> bool {
        numbered(self.here.as_slice(), j).copied().unwrap_or(false)
    }

    fn later(&self, j: usize) -> bool {
        number_of(self.obligations, |o| *o == j).is_some_and(|i| self.later.has(i))
    }

    fn prefix(&self, j: usize, prefix: Prefix, operand: usize) -> bool {
        let x = self.now(operand);
        match prefix {
            Prefix::Not => !x,
            Prefix::Next => self.later(operand),
            Prefix::Always => x && self.later(j),
            Prefix::Eventually => x || self.later(j),
        }
    }

    fn infix(&self, j: usize, infix: Infix, x: bool, y: bool) -> bool {
        match infix {
            Infix::Until => y || (x && self.later(j)),
            Infix::And => x && y,
            Infix::Or => x || y,
            Infix::Implies => !x || y,
            Infix::Xor => x != y,
            Infix::Iff => x == y,
        }
    }

    // The truth of a node, which has this number.
    fn truth(&self, j: usize, node: Node) -> bool {
        match node {
            Node::Letter(letter) => self.letters.has(letter),
            Node::Truth(value) => value,
            Node::Prefix(prefix, x) => self.prefix(j, prefix, x),
            Node::Infix(infix, x, y) => self.infix(j, infix, self.now(x), self.now(y)),
        }
    }
}

// The set of the obligations that hold at an event with these letters before a rest on which those of the set `later` hold.
fn before(
    heap: Global,
    formula: &Formula,
    obligations: &[usize],
    letters: Set,
    later: Set,
) -> Result<Set, AllocError> {
    let mut step = Step {
        here: Vec::new(heap),
        letters,
        obligations,
        later,
    };
    for (i, node) in formula.nodes.iter().enumerate() {
        let truth = step.truth(i.saturating_add(1), *node);
        step.here.push(truth)?;
    }
    Ok(Set::of(obligations.iter().map(|o| step.now(*o))))
}

// What is left of a rule after events with these letters: its value at each set of obligations, from 0 on. The rule itself is
// the last obligation.
pub fn residue(
    heap: Global,
    formula: &Formula,
    obligations: &[usize],
    events: &[Set],
) -> Result<Vec<bool>, AllocError> {
    let mut table = Vec::new(heap);
    for bits in 0..1 << obligations.len().min(8) {
        let mut set = Set(bits);
        for letters in events.iter().rev() {
            set = before(heap, formula, obligations, *letters, set)?;
        }
        table.push(set.has(obligations.len()))?;
    }
    Ok(table)
}

// Whether the product of the obligations in a set is a term: it is if an odd number of its parts have the value 1.
pub fn is_term(table: &[bool], product: u8) -> bool {
    let parts = (0..=u8::MAX)
        .zip(table)
        .filter(|(set, value)| **value && *set & !product == 0);
    usize::from(product) < table.len() && parts.count() % 2 == 1
}
