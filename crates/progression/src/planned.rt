// What a plan says before any event, and where no event comes any more.
ghost use Rattle.std.specs.Prelude.{◌≡◌, ℕ, ◌<◌, ◌≤◌, [], MatchOption};
ghost use Rattle.rules.specs.Tree.{decode};
ghost use Rattle.rules.specs.Rules.{node_count};
ghost use Rattle.verdicts.specs.Meaning.{means};
ghost use Rattle.verdicts.specs.Step.{at};
ghost use Rattle.verdicts.specs.YesNo.{yes_no};
ghost use Rattle.progression.specs.Obligations.{node_of, obligations, place};
ghost use Rattle.progression.specs.Progress.{at_end, fresh as fresh_of};
ghost use Rattle.progression.specs.Tables.{StandsFor};

use crate::plan::{MOST_OBLIGATIONS, Plan};
use polynomials::Residual;
use rules::Rule;
use verdicts::{TWO_ROWS, YesNo, evaluate};

// The values of the nodes on the empty rest: an evaluation of no events leaves them in its scratch.
fn ended(rule: &Rule) -> [YesNo; TWO_ROWS]
    ensures { (j : ℕ) → j < node_count rule.now → at yes_no result j ≡ means yes_no (decode (node_of rule.now) j) [] }
{
    let mut values = [YesNo::Broken; TWO_ROWS];
    evaluate(rule, 0, &[], &mut values).unwrap();
    values
}

impl Plan {
    pub fn rule(&self) -> &Rule
        ensures { result.now ≡ self.now.rule }
    {
        &self.rule
    }

    // How many obligations the rule has.
    pub fn count(&self) -> usize
        ensures { result ≡ obligations self.now.rule }
    {
        self.count
    }

    // What is left of the rule before any event: all of it. With more than eight obligations it is the constant 0.
    pub fn fresh(&self) -> Residual
        ensures { StandsFor result (fresh_of self.now.rule) }
    {
        if self.count > MOST_OBLIGATIONS {
            return Residual::zero();
        }
        Residual::variable(self.numbers[self.rule.nodes().len() - 1])
    }

    // The node of the i-th obligation, if there are so many.
    pub(crate) fn place(&self, i: usize) -> Option<usize>
        requires { i < 8 }
        ensures { MatchOption result (obligations self.now.rule ≤ i) (λ j. (i < obligations self.now.rule) × (j ≡ place self.now.rule i) × (j < node_count self.now.rule)) }
    {
        (i < self.count).then_some(self.places[i] as usize)
    }

    // The vector of the obligations' values on the empty rest.
    pub fn at_end(&self) -> u8
        ensures { result ≡ at_end self.now.rule }
    {
        let values = ended(&self.rule);
        let mut vector = 0;
        // By the number of each bit. A function with a closure, for this and `step` of `polynomials`, would say no less.
        for i in 0..MOST_OBLIGATIONS {
            if self.place(i).is_some_and(|j| values[j] == YesNo::Kept) {
                vector |= 1 << i;
            }
        }
        vector
    }
}
