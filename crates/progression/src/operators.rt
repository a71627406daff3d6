// The operators on truth tables: whether a vector is in a table is the value at that vector.
ghost use Rattle.std.specs.Prelude.{◌≡◌, ◌<◌, slice_index};
ghost use Rattle.verdicts.specs.Step.{Below, unary_row, binary_row, step_row};
ghost use Rattle.polynomials.specs.Held.{vectors, vectors_of};
ghost use Rattle.polynomials.specs.Sets.{in_set};
ghost use Rattle.progression.specs.Progress.{letters_in};
ghost use Rattle.progression.specs.Tables.{bools, TruthTable};

use polynomials::{Residual, VectorSet};
use rules::{Binary, MOST_LETTERS, MOST_NODES, Node, Unary};

// Whether letter l is in the set. A function of its own, since this crate knows nothing of readings, which have the like.
fn is_on(letters: u8, l: u8) -> bool
    ensures { result ≡ letters_in letters l }
{
    (l as usize) < MOST_LETTERS && letters >> l & 1 == 1
}

// A function and no `From`: neither type is this crate's.
fn constant(v: bool) -> VectorSet
    ensures { TruthTable result (λ _. v) }
{
    if v {
        VectorSet::full()
    } else {
        VectorSet::empty()
    }
}

// The value of the obligation with this number, counted from 1; there are eight at most.
fn variable(number: u8) -> VectorSet
    ensures { TruthTable result (λ v. in_set number v) }
{
    Residual::variable(number).to_values()
}

// The operators are not those of a scale of verdicts: a table has one step for what `Xor` and `Iff` of a scale do in five.
// `next` is the operand's value after the event, and `own` the operator's.
fn unary(op: Unary, x: VectorSet, next: VectorSet, own: VectorSet) -> VectorSet
    ensures { TruthTable result (λ v. unary_row bools op (vectors x v) (vectors next v) (vectors own v)) }
{
    match op {
        Unary::Not => x.complement(),
        Unary::Always => x.intersection(own),
        Unary::Eventually => x.union(own),
        Unary::Next => next,
    }
}

fn binary(op: Binary, x: VectorSet, y: VectorSet, own: VectorSet) -> VectorSet
    ensures { TruthTable result (λ v. binary_row bools op (vectors x v) (vectors y v) (vectors own v)) }
{
    match op {
        Binary::Until => y.union(x.intersection(own)),
        Binary::And => x.intersection(y),
        Binary::Xor => x.symmetric_difference(y),
        Binary::Or => x.union(y),
        Binary::Implies => x.complement().union(y),
        Binary::Iff => x.symmetric_difference(y).complement(),
    }
}

// Node j at an event, from the truth tables of the nodes before it and the obligations' numbers.
pub(crate) fn node_table(
    node: Node,
    j: usize,
    numbers: &[u8; MOST_NODES],
    tables: &[VectorSet; MOST_NODES],
    letters: u8,
) -> VectorSet
    requires j_bound { j < 64 }
    requires below { Below j node }
    ensures { TruthTable result (λ v. step_row bools (letters_in letters) (λ a. vectors_of tables.now a v) (λ a. in_set (slice_index numbers.now a) v) (in_set (slice_index numbers.now j) v) node) }
{
    match node {
        Node::Letter(l) => constant(is_on(letters, l)),
        Node::Truth(v) => constant(v),
        Node::Before(op, a) => unary(
            op,
            tables[a as usize],
            variable(numbers[a as usize]),
            variable(numbers[j]),
        ),
        Node::Between(op, a, b) => binary(
            op,
            tables[a as usize],
            tables[b as usize],
            variable(numbers[j]),
        ),
    }
}
