// Comparing how rule texts are read.
use crate::same::{answered, same};
use crate::tally::Tally;
use reference::{Formula, Infix, Node, Prefix, read_formula};
use rules::{Binary, Rule, Unary};
use std::alloc::{AllocError, Global};

// Both types are other crates', so this and the next are functions and no `From`.
fn prefix(unary: Unary) -> Prefix {
    match unary {
        Unary::Not => Prefix::Not,
        Unary::Always => Prefix::Always,
        Unary::Eventually => Prefix::Eventually,
        Unary::Next => Prefix::Next,
    }
}

fn infix(binary: Binary) -> Infix {
    match binary {
        Binary::Until => Infix::Until,
        Binary::And => Infix::And,
        Binary::Xor => Infix::Xor,
        Binary::Or => Infix::Or,
        Binary::Implies => Infix::Implies,
        Binary::Iff => Infix::Iff,
    }
}

// A number that counts from 0, as one that counts from 1.
fn counted(i: u8) -> usize {
    usize::from(i).saturating_add(1)
}

// A function and no `From`: both types are other crates'.
fn plain(node: rules::Node) -> Node {
    match node {
        rules::Node::Letter(l) => Node::Letter(counted(l)),
        rules::Node::Truth(value) => Node::Truth(value),
        rules::Node::Before(u, x) => Node::Prefix(prefix(u), counted(x)),
        rules::Node::Between(b, x, y) => Node::Infix(infix(b), counted(x), counted(y)),
    }
}

fn same_nodes(rule: &Rule, formula: &Formula) -> bool {
    let plain = rule.nodes().iter().map(|node| plain(*node));
    plain.eq(formula.nodes.iter().copied())
}

fn same_letters(rule: &Rule, formula: &Formula) -> bool {
    let letters = rule.letters();
    letters.len() == formula.letters.len()
        && letters.iter().zip(formula.letters.iter()).all(|(letter, other)| {
            letter.at == other.at && letter.name.text() == other.name.as_slice()
        })
}

pub fn compare_text(heap: Global, text: &[u8], tally: &mut Tally) -> Result<(), AllocError> {
    let mut rule = Rule::new();
    let read = rule.read(text);
    let formula = answered(read_formula(heap, text))?;
    if read.is_err() {
        tally.met(&formula)?;
    }
    let alike = same(read, &formula, |(), formula| {
        same_nodes(&rule, formula) && same_letters(&rule, formula)
    });
    tally.counts.texts.note(alike);
    Ok(())
}
