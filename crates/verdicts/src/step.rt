// One step of an evaluation: the value of a node from those of its operands.
ghost use Rattle.std.specs.Prelude.{◌≡◌, length};
ghost use Rattle.verdicts.specs.Meaning.{constant};
ghost use Rattle.verdicts.specs.Step.{Below, Known, unary_end, binary_end, unary_row, binary_row, step_end, step_row, at};

use crate::scale::Scale;
use rules::{Binary, Node, Unary};

// The constant on any scale. `YesNo::from` is that of one, whose ends are made by it.
fn truth_value<S: Scale>(v: bool) -> S
    ensures { result ≡ constant S.ops v }
{
    if v { S::top() } else { S::bottom() }
}

// An operator past the last event.
fn unary_end<S: Scale>(op: Unary, x: S) -> S
    ensures { result ≡ unary_end S.ops op x }
{
    match op {
        Unary::Not => x.negate(),
        Unary::Always => S::top(),
        Unary::Eventually | Unary::Next => S::bottom(),
    }
}

fn binary_end<S: Scale>(op: Binary, x: S, y: S) -> S
    ensures { result ≡ binary_end S.ops op x y }
{
    match op {
        Binary::Until => S::bottom(),
        Binary::And => x.meet(y),
        Binary::Xor => x.meet(y.negate()).join(x.negate().meet(y)),
        Binary::Or => x.join(y),
        Binary::Implies => x.negate().join(y),
        Binary::Iff => x.meet(y).join(x.negate().meet(y.negate())),
    }
}

// An operator at an event. `next` is the operand's value one place on, and `own` the node's.
fn unary_row<S: Scale>(op: Unary, x: S, next: S, own: S) -> S
    ensures { result ≡ unary_row S.ops op x next own }
{
    match op {
        Unary::Not => x.negate(),
        Unary::Always => x.meet(own),
        Unary::Eventually => x.join(own),
        Unary::Next => next,
    }
}

fn binary_row<S: Scale>(op: Binary, x: S, y: S, own: S) -> S
    ensures { result ≡ binary_row S.ops op x y own }
{
    match op {
        Binary::Until => y.join(x.meet(own)),
        _ => binary_end(op, x, y),
    }
}

// A node past the last event. `here` has the values there of the nodes before it.
pub(crate) fn node_end<S: Scale>(node: Node, here: &[S]) -> S
    requires { Below (length here.now) node }
    ensures { result ≡ step_end S.ops (at S.ops here.now) node }
{
    match node {
        Node::Letter(_) => S::bottom(),
        Node::Truth(v) => truth_value(v),
        Node::Before(op, a) => unary_end(op, here[a as usize]),
        Node::Between(op, a, b) => binary_end(op, here[a as usize], here[b as usize]),
    }
}

// A node at an event. `here` has the values there of the nodes before it, `next` those one place on, and `own` is its own
// one place on.
pub(crate) fn node_row<S: Scale>(node: Node, letters: &[S], here: &[S], next: &[S], own: S) -> S
    requires known { Known (length letters.now) node }
    requires below_here { Below (length here.now) node }
    requires below_next { Below (length next.now) node }
    ensures { result ≡ step_row S.ops (at S.ops letters.now) (at S.ops here.now) (at S.ops next.now) own node }
{
    match node {
        Node::Letter(l) => letters[l as usize],
        Node::Truth(v) => truth_value(v),
        Node::Before(op, a) => unary_row(op, here[a as usize], next[a as usize], own),
        Node::Between(op, a, b) => binary_row(op, here[a as usize], here[b as usize], own),
    }
}
