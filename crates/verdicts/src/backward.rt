// The backward evaluation of a rule: a row of values for each place, the last place first.
ghost use Rattle.std.specs.Prelude.{◌≡◌, ℕ, ◌+◌, ◌*◌, ◌≤◌, List, [], ◌∷◌, length, take, drop};
ghost use Rattle.rules.specs.Rules.{node_count, letter_count, nodes_of, tree_of_rule};
ghost use Rattle.rules.specs.Tree.{Tree, flatten};
ghost use Rattle.verdicts.specs.Meaning.{means};
ghost use Rattle.rules.specs.First.{Left, answer};
ghost use Rattle.verdicts.specs.Outcome.{Filled, recorded, refused};
ghost use Rattle.verdicts.specs.Step.{Valued};

use crate::events::MOST_EVENTS;
use crate::scale::Scale;
use crate::step::{node_end, node_row};
use rules::{Fault, MOST_NODES, Rule};

// The values that an evaluation of any rule has room in: two rows.
pub const TWO_ROWS: usize = 2 * MOST_NODES;

// The values of all nodes past the last event.
fn end_row<S: Scale>(rule: &Rule, here: &mut [S])
    requires { length here.old ≡ node_count rule.now }
    ensures { Valued S.ops (nodes_of rule.now) here.new [] (node_count rule.now) }
{
    // Written by index: a node's value is made from those before it.
    for (i, node) in rule.nodes().iter().enumerate() {
        here[i] = node_end(*node, here);
    }
}

// The values of all nodes at an event with these letters, from those one place on. A loop of its own: with a closure for the
// step it would say no less, since each of the two rows is promised something else.
fn row<S: Scale>(rule: &Rule, letters: &[S], next: &[S], here: &mut [S])
    requires letters_len { length letters.now ≡ letter_count rule.now }
    requires next_len { length next.now ≡ node_count rule.now }
    requires here_len { length here.old ≡ node_count rule.now }
    ensures { (rs : List (List S)) → Valued S.ops (nodes_of rule.now) next.now rs (node_count rule.now) → Valued S.ops (nodes_of rule.now) here.new (letters.now ∷ rs) (node_count rule.now) }
{
    // Written by index, as above.
    for (i, node) in rule.nodes().iter().enumerate() {
        here[i] = node_row(*node, letters, here, next, next[i]);
    }
}

// The letters of event `p`, of which there are `k`.
fn letters_at<S: Scale>(valuation: &[S], k: usize, p: usize) -> &[S]
    requires { p * k + k ≤ length valuation.now }
    ensures same { result.now ≡ take k (drop (p * k) valuation.now) }
    ensures long { length result.now ≡ k }
{
    // Cut by index: a rule without letters has rows of no width, and `chunks` takes none.
    let start = p * k;
    &valuation[start..start + k]
}

// Goes through the places, from the last to the first.
fn fill<S: Scale>(rule: &Rule, n: usize, valuation: &[S], scratch: &mut [S])
    requires letters_in_bounds { n * letter_count rule.now ≤ length valuation.now }
    requires nodes_in_bounds { 2 * node_count rule.now ≤ length scratch.old }
    ensures { Filled S.ops (nodes_of rule.now) (node_count rule.now) n (recorded rule.now n valuation.now) scratch.old scratch.new }
{
    let m = rule.nodes().len();
    let k = rule.letters().len();
    let (here, rest) = scratch.split_at_mut(m);
    let (next, _) = rest.split_at_mut(m);
    end_row(rule, here);
    for p in (0..n).rev() {
        next.copy_from_slice(here);
        row(rule, letters_at(valuation, k, p), next, here);
    }
}

// The value of `rule` at the first of `n` events. `valuation` has a row of letters for each event. Scratch has two rows
// for the rule's nodes, and shows afterwards what they come to at the first two places.
pub fn evaluate<S: Scale>(
    rule: &Rule,
    n: usize,
    valuation: &[S],
    scratch: &mut [S],
) -> Result<S, Fault>
    ensures answers { result ≡ answer (refused rule.now n valuation.now scratch.old) (means S.ops (tree_of_rule rule.now) (recorded rule.now n valuation.now)) }
    ensures means_tree { (t : Tree ℕ) → flatten t 0 ≡ nodes_of rule.now → result ≡ answer (refused rule.now n valuation.now scratch.old) (means S.ops t (recorded rule.now n valuation.now)) }
    ensures leaves { Left (refused rule.now n valuation.now scratch.old) (scratch.new ≡ scratch.old) (Filled S.ops (nodes_of rule.now) (node_count rule.now) n (recorded rule.now n valuation.now) scratch.old scratch.new) }
{
    let m = rule.nodes().len();
    let k = rule.letters().len();
    if n > MOST_EVENTS {
        return Err(Fault::ManyEvents);
    }
    if valuation.len() < n * k {
        return Err(Fault::ShortBuffer(n * k));
    }
    if scratch.len() < 2 * m {
        return Err(Fault::ShortBuffer(2 * m));
    }
    fill(rule, n, valuation, scratch);
    Ok(scratch[m - 1])
}
