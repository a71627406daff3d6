// What every reading answers. All of it is read off one value, the reading's meaning.
ghost use Rattle.std.specs.Prelude.{◌≡◌, ℕ, ◌<◌, ◌≤◌, List, if◌then◌else◌, Some, Decides, bit_and};
ghost use Rattle.readings.specs.Meaning.{Meaning, mark_of, on_set, doubt_set, Possible};

use crate::mark::Mark;
use crate::set::sets_of;

pub trait Reading {
    ghost meaning: { Self → Meaning };

    // How many codes there are, from 0 on.
    fn codes(&self) -> u32
        ensures { result ≡ (meaning self.now).codes };

    // The number of a name, from 1 on.
    fn find(&self, name: &[u8]) -> Option<u8>
        ensures { result ≡ (meaning self.now).finds name.now };

    // What a code says of a name. A code or a name that there is not is off.
    fn mark(&self, code: u32, name: u8) -> Mark
        ensures { result ≡ mark_of (meaning self.now) code name };

    // The set of the listed names that are on, and of those in doubt: place i, from 1, is worth 2^(i-1). No place is in both.
    fn show(&self, code: u32, names: &[u8]) -> (u8, u8)
        ensures on { result.0 ≡ on_set (meaning self.now) code names.now }
        ensures doubt { result.1 ≡ doubt_set (meaning self.now) code names.now }
        ensures apart { bit_and result.0 result.1 ≡ 0 }
    {
        sets_of(names, |name| self.mark(code, name))
    }

    // Whether some code shows just this set on, and nothing in doubt. This tries every code.
    fn possible(&self, names: &[u8], set: u8) -> bool
        ensures { Decides result (Possible (meaning self.now) names.now set) }
    {
        (0..self.codes()).any(|code| self.show(code, names) == (set, 0))
    }

    // There is a code.
    ghost some: { (s : Self) → 0 < (meaning s).codes };

    // There are at most 64 names.
    ghost few: { (s : Self) → (meaning s).names ≤ 64 };

    // What is found is a name's number.
    ghost numbered: { (s : Self) (n : List ℕ) (k : ℕ) → (meaning s).finds n ≡ Some k → (1 ≤ k) × (k ≤ (meaning s).names) };
}
