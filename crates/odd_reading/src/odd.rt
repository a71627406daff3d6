// A reading with three codes and two names. It says the rest of what a reading says by the bodies of the trait.
ghost use Rattle.odd_reading.specs.Oddly.{odd_meaning};
ghost use Rattle.std.proofs.Common.{rules};

use readings::{Mark, Reading};
use rules::same_name;

#[derive(Clone, Copy)]
pub struct Odd;

impl Reading for Odd {
    ghost meaning = { λ _. odd_meaning };

    ghost some = { Prim.search rules };

    ghost few = { Prim.search rules };

    ghost numbered = { Prim.search rules };

    fn codes(&self) -> u32 {
        3
    }

    // By `same_name`, which alone compares names.
    fn find(&self, name: &[u8]) -> Option<u8> {
        if same_name(name, b"left") {
            Some(1)
        } else if same_name(name, b"right") {
            Some(2)
        } else {
            None
        }
    }

    fn mark(&self, code: u32, name: u8) -> Mark {
        match (code, name) {
            (1, 1 | 2) | (2, 2) => Mark::On,
            (2, 1) => Mark::Doubt,
            _ => Mark::Off,
        }
    }
}
