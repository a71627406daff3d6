// A rule with its obligations.
ghost use Rattle.std.specs.Prelude.{◌≡◌, ℕ, ◌<◌, length, slice_index};
ghost use Rattle.rules.specs.Rules.{node_count, nodes_of};
ghost use Rattle.progression.specs.Obligations.{obligations, number, place};

use rules::{MOST_NODES, Rule};

// The most obligations of a rule that is monitored.
pub const MOST_OBLIGATIONS: usize = 8;

// How many obligations there are; for each node the number of the obligation that it is, or else of the next one; and the nodes
// of the first eight. Tables of fixed sizes and no `Vec`: no heap.
#[derive(Clone, Copy)]
pub struct Plan {
    pub(crate) rule: Rule,
    pub(crate) count: usize,
    pub(crate) numbers: [u8; MOST_NODES],
    pub(crate) places: [u8; MOST_OBLIGATIONS],
    ghost counted: { count ≡ obligations rule },
    ghost numbered: { (j : ℕ) → j < node_count rule → slice_index numbers j ≡ number rule j },
    ghost placed: { (i : ℕ) → i < 8 → i < obligations rule → slice_index places i ≡ place rule i },
    ghost sized: { length (nodes_of rule) ≡ node_count rule },
}
