// Sets of up to eight places, as the bits of a byte.
ghost use Rattle.std.specs.Prelude.{◌≡◌, ℕ, ◌/◌, ◌%◌, ◌^◌, ◌<◌, Bool, take, ◌==◌};
ghost use Rattle.readings.specs.Meaning.{is_on, in_doubt, worth};
ghost use Rattle.readings.specs.declared.mark.Mark.{Mark};

use crate::mark::Mark;

// The most places. A longer list counts up to its eighth entry.
pub(crate) const PLACES: usize = 8;

// Whether place `i` is in a set, counted from 0, where `i` is known to be a place.
pub(crate) fn bit(set: u32, i: usize) -> bool
    requires { i < 8 }
    ensures { result ≡ ((set / 2 ^ i % 2) == 1) }
{
    set >> i & 1 == 1
}

// Whether place `i` is in a set, counted from 0. There is none from 8 on.
pub fn has(set: u8, i: usize) -> bool
    ensures { result ≡ ((set / 2 ^ i % 2) == 1) }
{
    i < PLACES && bit(set as u32, i)
}

// The set of the places where a list's entries pass.
pub(crate) fn set_of<F: Fn(u8) -> bool>(entries: &[u8], passes: F) -> u8
    requires { (n : ℕ) → n < 256 → F.pre passes n }
    ensures { (p : ℕ → Bool) → ((n : ℕ) (b : Bool) → n < 256 → F.post passes n b → b ≡ p n) → result ≡ worth p 0 (take PLACES entries.now) }
{
    let counted = &entries[..entries.len().min(PLACES)];
    let mut set = 0;
    for (i, entry) in counted.iter().enumerate() {
        if passes(*entry) {
            set += 1 << i;
        }
    }
    set
}

// The sets of the places where a list's entries are on, and where they are in doubt. One pass, since a mark may be dear to ask for.
pub(crate) fn sets_of<F: Fn(u8) -> Mark>(entries: &[u8], mark: F) -> (u8, u8)
    requires { (n : ℕ) → n < 256 → F.pre mark n }
    ensures { (k : ℕ → Mark) → ((n : ℕ) (m : Mark) → n < 256 → F.post mark n m → m ≡ k n) → (result.0 ≡ worth (λ n. is_on (k n)) 0 (take PLACES entries.now)) × (result.1 ≡ worth (λ n. in_doubt (k n)) 0 (take PLACES entries.now)) }
{
    let counted = &entries[..entries.len().min(PLACES)];
    let mut on: u16 = 0;
    let mut doubt: u16 = 0;
    // By doubling: a shift by the place would cost as much as all else here.
    let mut worth: u16 = 1;
    for entry in counted {
        match mark(*entry) {
            Mark::Off => {}
            Mark::On => on += worth,
            Mark::Doubt => doubt += worth,
        }
        worth *= 2;
    }
    (on as u8, doubt as u8)
}
