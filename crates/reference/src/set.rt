// Sets of numbers from 1 to 64.
ghost use Rattle.std.specs.Iterator.{IsFinite};

// A set, as bits: number n is worth 2^(n-1).
#[derive(Clone, Copy, PartialEq, Eq, PartialOrd, Ord, Debug)]
pub struct Set(pub u64);

impl Set {
    // The numbers at which a list of flags, numbered from 1, has true.
    pub(crate) fn of<I: Iterator<Item = bool> + Drop>(flags: I) -> Set
        requires can { I.can_next flags }
        requires ends { IsFinite (I.remaining flags) }
    {
        let mut set: u64 = 0;
        // By doubling: of a list of any kind nothing is known that bounds a shift.
        let mut worth: u64 = 1;
        for flag in flags {
            if flag {
                set |= worth;
            }
            worth = worth.wrapping_mul(2);
        }
        Set(set)
    }

    pub(crate) fn has(self, number: usize) -> bool {
        (1..=64).contains(&number) && self.0 >> (number - 1) & 1 == 1
    }
}
