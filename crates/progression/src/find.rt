// Finding the obligations of a rule.
ghost use Rattle.std.specs.Prelude.{◌≡◌, ◌+◌, ◌<◌, ◌||◌, length, ◌==◌, slice_set};
ghost use Rattle.rules.specs.Tree.{node_at};
ghost use Rattle.progression.specs.Obligations.{lasts as lasting, looks_at, any_below};

use crate::plan::{MOST_OBLIGATIONS, Plan};
use rules::{Binary, MOST_NODES, Node, Rule, Unary};

// Whether a node's value at an event takes in its own value after the event.
fn lasts(node: Node) -> bool
    ensures { result ≡ lasting node }
{
    matches!(
        node,
        Node::Before(Unary::Always | Unary::Eventually, _) | Node::Between(Binary::Until, _, _)
    )
}

// Whether it takes in the value of node j after the event.
fn looks_at(node: Node, j: usize) -> bool
    ensures { result ≡ looks_at j node }
{
    matches!(node, Node::Before(Unary::Next, a) if a as usize == j)
}

// Whether some node takes in the value of node j after the event.
fn is_looked_at(nodes: &[Node], j: usize) -> bool
    ensures { result ≡ any_below (length nodes.now) (λ k. looks_at j (node_at nodes.now k)) }
{
    nodes.iter().any(|node| looks_at(*node, j))
}

// Whether the node, which has the number j, is an obligation.
fn is_obligation(nodes: &[Node], j: usize, node: Node) -> bool
    requires { j < length nodes.now }
    ensures { result ≡ (j + 1 == length nodes.now || (lasting node || any_below (length nodes.now) (λ k. looks_at j (node_at nodes.now k)))) }
{
    j + 1 == nodes.len() || lasts(node) || is_looked_at(nodes, j)
}

// Writes the i-th place, if it is one of the first eight. By index: what `get_mut` lends leaves the places unknown afterwards.
fn put(places: &mut [u8; MOST_OBLIGATIONS], i: usize, node: u8)
    ensures { places.new ≡ slice_set places.old i node }
{
    if i < MOST_OBLIGATIONS {
        places[i] = node;
    }
}

impl Plan {
    pub fn new(rule: Rule) -> Plan
        ensures { result.rule ≡ rule }
    {
        let mut numbers = [0; MOST_NODES];
        let mut places = [0; MOST_OBLIGATIONS];
        let mut count = 0;
        let nodes = rule.nodes();
        for (j, node) in nodes.iter().enumerate() {
            numbers[j] = count as u8 + 1;
            if is_obligation(nodes, j, *node) {
                put(&mut places, count, j as u8);
                count += 1;
            }
        }
        Plan {
            rule,
            count,
            numbers,
            places,
        }
    }
}
