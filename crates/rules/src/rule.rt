// A rule as a table of nodes, operands first. The last node is the whole rule.
ghost use Rattle.std.specs.Prelude.{◌≡◌, ℕ, ◌-◌, ◌<◌, ◌≤◌, true, take};
ghost use Rattle.rules.specs.declared.rule.TheConstants.{MOST_LETTERS, MOST_NODES};
ghost use Rattle.std.proofs.Props.{props};
ghost use Rattle.rules.specs.Tree.{fits, node_at, decode, flatten};

use crate::name::Name;
use crate::node::Node;

// The most nodes of a rule.
pub const MOST_NODES: usize = 64;

// The most letters of a rule.
pub const MOST_LETTERS: usize = 8;

// A name of a rule, and the byte of its text at which it first appears.
#[derive(Clone, Copy, Debug)]
pub struct Letter {
    pub name: Name,
    pub at: usize,
}

// The first `size` nodes and the first `count` letters, each in the order of the text. Buffers with their lengths, since nothing here is on a heap.
#[derive(Clone, Copy, Debug)]
pub struct Table {
    pub(crate) nodes: [Node; MOST_NODES],
    pub(crate) size: usize,
    pub(crate) letters: [Letter; MOST_LETTERS],
    pub(crate) count: usize,
    ghost few: { size ≤ MOST_NODES },
    ghost known: { count ≤ MOST_LETTERS },
}

// What is said of its size and count is the table's too: here readers of a rule find it.
#[derive(Clone, Copy, Debug)]
pub struct Rule {
    pub(crate) table: Table,
    ghost some: { 1 ≤ table.size },
    ghost few: { table.size ≤ MOST_NODES },
    ghost known: { table.count ≤ MOST_LETTERS },
    ghost ok: { (i : ℕ) → i < table.size → fits table.count i (node_at table.nodes i) ≡ true },
    ghost flat: { flatten (decode (node_at (take table.size table.nodes)) (table.size - 1)) 0 ≡ take table.size table.nodes } by { Prim.hlevel props },
}
