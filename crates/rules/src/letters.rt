// The letters of a rule, each once, in the order of the text.
ghost use Rattle.std.specs.Prelude.{◌≡◌, ◌≤◌, MatchResult};
ghost use Rattle.rules.specs.Signs.{stop_at};
ghost use Rattle.rules.specs.Names.{spelled, same_name, number_in, place, names_in, letter_at, Numbered};
ghost use Rattle.rules.specs.declared.sign.Why.TheVariants.{ManyLetters};

use crate::lex::skip;
use crate::name::Name;
use crate::names::same_name;
use crate::rule::{Letter, MOST_LETTERS, Table};
use crate::sign::{Stop, Why};

impl Letter {
    // Whether its name is this one.
    fn is(&self, name: &Name) -> bool
        ensures { result ≡ same_name (spelled self.now.name) (spelled name.now) }
    {
        same_name(self.name.text(), name.text())
    }
}

// The number of a name, if it has one.
fn find(letters: &[Letter], name: &Name) -> Option<usize>
    ensures { result ≡ number_in letters.now name.now }
{
    letters.iter().position(|x| x.is(name))
}

// The name as a letter, where `s` is left of a text of `total` bytes.
fn letter_at(total: usize, s: &[u8], name: Name) -> Letter
    ensures { result ≡ letter_at total s.now name }
{
    Letter {
        name,
        at: total.saturating_sub(skip(s).len()),
    }
}

impl Table {
    // The number of the name that stands at `s`, which is noted with its place if it is new.
    pub(crate) fn number(&mut self, total: usize, s: &[u8], name: Name) -> Result<u8, Stop>
        ensures { MatchResult result (λ i. Numbered self.old self.new (letter_at total s.now name) i) (λ f. (MOST_LETTERS ≤ place (names_in self.old) name) × (f ≡ stop_at ManyLetters s.now)) }
    {
        let count = self.count;
        if let Some(i) = find(&self.letters[..count], &name) {
            return Ok(i as u8);
        }
        if count == MOST_LETTERS {
            return Err(Stop::at(Why::ManyLetters, s));
        }
        self.letters[count] = letter_at(total, s, name);
        self.count += 1;
        Ok(count as u8)
    }
}
