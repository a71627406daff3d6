// Readings that are made from a list of names.
ghost use Rattle.std.specs.Prelude.{◌≡◌, ℕ, List, length, None, Some, MatchResult};
ghost use Rattle.rules.specs.First.{answer};
ghost use Rattle.readings.specs.Listed.{lent, find_in, refused_names, kept_by};

use crate::reading::Reading;
use rules::Fault;

pub trait Named: Reading + Sized {
    // The most names.
    ghost most: { ℕ };

    // The names that a reading has, in order.
    ghost listed: { Self → List (List ℕ) };

    // How many names there are, or why the list is refused.
    fn check(names: &[&[u8]]) -> Result<usize, Fault>
        ensures { result ≡ answer (refused_names most (lent names.now)) (length names.now) };

    // The reading with these names; with none where the check refuses them.
    fn new(names: &[&[u8]]) -> Self
        ensures { listed result ≡ kept_by (refused_names most (lent names.now)) (lent names.now) };

    // The reading with these names, or why the list is refused.
    fn named(names: &[&[u8]]) -> Result<Self, Fault>
        ensures { MatchResult result (λ r. (refused_names most (lent names.now) ≡ None) × (listed r ≡ lent names.now)) (λ f. refused_names most (lent names.now) ≡ Some f) }
    {
        Self::check(names)?;
        Ok(Self::new(names))
    }

    // What is found is a name of the list.
    ghost finds_listed: { (s : Self) (n : List ℕ) → (Self.meaning s).finds n ≡ find_in (listed s) n };

    // The list has all the names.
    ghost counts_listed: { (s : Self) → (Self.meaning s).names ≡ length (listed s) };
}
