// Binding a rule to a reading, and asking a bound rule for its parts.
ghost use Rattle.std.specs.Prelude.{◌≡◌, not, length, take, ◌==◌};
ghost use Rattle.rules.specs.First.{answer};
ghost use Rattle.rules.specs.Rules.{letters_of, letter_count};
ghost use Rattle.readings.specs.Meaning.{doubt_set};
ghost use Rattle.readings.specs.Binding.{unbound, numbers_for, numbers_of};

use crate::bound::BoundRule;
use crate::reading::Reading;
use rules::{Fault, MOST_LETTERS, Rule};

impl<R: Reading> BoundRule<R> {
    // How many letters the rule has, or the first that the reading does not know.
    pub fn check(rule: &Rule, reading: &R) -> Result<usize, Fault>
        ensures { result ≡ answer (unbound (R.meaning reading.now) (letters_of rule.now)) (letter_count rule.now) }
    {
        let letters = rule.letters();
        for letter in letters {
            let found = reading.find(letter.name.text());
            found.ok_or(Fault::AbsentName(letter.at))?;
        }
        Ok(letters.len())
    }

    // The rule bound to the reading. A letter that the check refuses gets the number 0, which is always off.
    pub fn new(rule: Rule, reading: R) -> BoundRule<R>
        ensures reading { result.reading ≡ reading }
        ensures rule { result.rule ≡ rule }
        ensures numbers { numbers_of result ≡ numbers_for (R.meaning reading) (letters_of rule) }
    {
        let numbers = numbers_for(&rule, &reading);
        BoundRule {
            reading,
            rule,
            numbers,
        }
    }

    pub fn rule(&self) -> &Rule
        ensures { result.now ≡ self.now.rule }
    {
        &self.rule
    }

    pub fn reading(&self) -> &R
        ensures { result.now ≡ self.now.reading }
    {
        &self.reading
    }

    // The number of each letter in the reading.
    pub fn numbers(&self) -> &[u8]
        ensures value { result.now ≡ numbers_of self.now }
        ensures long { length result.now ≡ letter_count self.now.rule }
    {
        &self.numbers[..self.rule.letters().len()]
    }

    // The reading, the rule, and the number of each letter; what lies past the rule's letters says nothing.
    pub fn into_parts(self) -> (R, Rule, [u8; MOST_LETTERS])
        ensures reading { result.0 ≡ self.reading }
        ensures rule { result.1 ≡ self.rule }
        ensures numbers { take (letter_count result.1) result.2 ≡ numbers_of self }
        ensures long { length result.2 ≡ 8 }
    {
        let BoundRule {
            reading,
            rule,
            numbers,
        } = self;
        (reading, rule, numbers)
    }

    // Whether a letter of the rule is in doubt at this code.
    pub fn in_doubt(&self, code: u32) -> bool
        ensures { result ≡ not (doubt_set (R.meaning self.now.reading) code (numbers_of self.now) == 0) }
    {
        let (_, doubt) = self.reading.show(code, self.numbers());
        doubt != 0
    }
}

fn numbers_for<R: Reading>(rule: &Rule, reading: &R) -> [u8; MOST_LETTERS]
    ensures { take (letter_count rule.now) result ≡ numbers_for (R.meaning reading.now) (letters_of rule.now) }
{
    let mut numbers = [0; MOST_LETTERS];
    let letters = rule.letters();
    for (i, letter) in letters.iter().enumerate() {
        numbers[i] = reading.find(letter.name.text()).unwrap_or(0);
    }
    numbers
}
