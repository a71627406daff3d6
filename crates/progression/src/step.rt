// What an event leaves of a rule, by truth tables.
ghost use Rattle.std.specs.Prelude.{◌<◌};
ghost use Rattle.rules.specs.Rules.{node_count};
ghost use Rattle.polynomials.specs.Polynomial.{Polynomial, value, substitute};
ghost use Rattle.progression.specs.Progress.{change};
ghost use Rattle.progression.specs.Tables.{TruthTable, StandsFor, Tabled, Changes};

use crate::operators::node_table;
use crate::plan::{MOST_OBLIGATIONS, Plan};
use polynomials::{Residual, VectorSet};
use rules::MOST_NODES;
use std::array;

impl Plan {
    // The truth table of each node at an event with these letters.
    fn node_tables(&self, letters: u8) -> [VectorSet; MOST_NODES]
        ensures { Tabled self.now.rule letters (node_count self.now.rule) result }
    {
        let mut tables = [VectorSet::empty(); MOST_NODES];
        let nodes = self.rule.nodes();
        for (j, node) in nodes.iter().enumerate() {
            tables[j] = node_table(*node, j, &self.numbers, &tables, letters);
        }
        tables
    }

    // What the event puts in the place of the i-th obligation.
    fn change(&self, letters: u8, tables: &[VectorSet; MOST_NODES], i: usize) -> VectorSet
        requires i_bound { i < 8 }
        requires tabled { Tabled self.now.rule letters (node_count self.now.rule) tables.now }
        ensures { TruthTable result (value (change self.now.rule letters i)) }
    {
        self.place(i).map_or(VectorSet::empty(), |j| tables[j])
    }

    // The truth table of what an event with these letters puts in the place of each obligation.
    pub fn changes(&self, letters: u8) -> [VectorSet; MOST_OBLIGATIONS]
        ensures { Changes self.now.rule letters result }
    {
        let tables = self.node_tables(letters);
        array::from_fn(|i| self.change(letters, &tables, i))
    }

    // What an event with these letters leaves of what was left before it.
    pub fn after(&self, left: Residual, letters: u8) -> Residual
        ensures { (P : Polynomial) → StandsFor left P → StandsFor result (substitute P (change self.now.rule letters)) }
    {
        left.substitute_values(&self.changes(letters))
    }
}
