// A rule as it is made, and what can be asked of it.
ghost use Rattle.std.specs.Prelude.{◌≡◌, ◌<◌, true, [], ◌∷◌, length};
ghost use Rattle.rules.specs.Descent.{Put};
ghost use Rattle.rules.specs.Rules.{node_count, letter_count, nodes_of, letters_of, tree_of_rule};
ghost use Rattle.rules.specs.Tree.{flatten};
ghost use Rattle.rules.specs.declared.node.Node.TheVariants.{Truth};

use crate::name::Name;
use crate::node::Node;
use crate::rule::{Letter, MOST_LETTERS, MOST_NODES, Rule, Table};

impl Table {
    // A table of no nodes and no letters.
    pub(crate) fn empty() -> Table
        ensures size { result.size ≡ 0 }
        ensures count { result.count ≡ 0 }
    {
        let letter = Letter {
            name: Name::none(),
            at: 0,
        };
        Table {
            nodes: [Node::Truth(true); MOST_NODES],
            size: 0,
            letters: [letter; MOST_LETTERS],
            count: 0,
        }
    }

    // Writes a node behind the others, and says its number.
    pub(crate) fn put(&mut self, n: Node) -> u8
        requires { self.old.size < MOST_NODES }
        ensures { Put self.old self.new n result }
    {
        let at = self.size;
        self.nodes[at] = n;
        self.size += 1;
        at as u8
    }
}

impl Rule {
    // The rule `true`.
    pub fn new() -> Rule
        ensures nodes { nodes_of result ≡ Truth true ∷ [] }
        ensures letters { letters_of result ≡ [] }
    {
        let mut table = Table::empty();
        table.put(Node::Truth(true));
        Rule { table }
    }

    // The nodes, operands first; the last is the whole rule.
    pub fn nodes(&self) -> &[Node]
        ensures same { result.now ≡ nodes_of self.now }
        ensures long { length result.now ≡ node_count self.now }
        ensures whole { result.now ≡ flatten (tree_of_rule self.now) 0 }
    {
        &self.table.nodes[..self.table.size]
    }

    // The letters, by first appearance.
    pub fn letters(&self) -> &[Letter]
        ensures same { result.now ≡ letters_of self.now }
        ensures long { length result.now ≡ letter_count self.now }
    {
        &self.table.letters[..self.table.count]
    }
}
