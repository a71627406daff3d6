// Making a words reading, and asking it.
ghost use Rattle.std.specs.Prelude.{refl};
ghost use Rattle.readings.specs.Listed.{spellings};
ghost use Rattle.readings.specs.Words.{words_meaning};
ghost use Rattle.std.proofs.Common.{arith, rules};
ghost use Rattle.readings.specs.Finding.{spellings_length, found_within};

use crate::listed::NameList;
use crate::mark::Mark;
use crate::named::Named;
use crate::reading::Reading;
use crate::words::{NAMES, Words};
use rules::Fault;

// The number of codes.
const CODES: u32 = 256;

impl Reading for Words {
    ghost meaning = { words_meaning };

    ghost some = { Prim.search rules };

    ghost few = { λ s. omega (arith, spellings_length s.list, s.list.few) };

    ghost numbered = { λ s n k e. found_within (spellings s.list) n k e };

    fn codes(&self) -> u32 {
        CODES
    }

    fn find(&self, name: &[u8]) -> Option<u8> {
        self.list.find(name)
    }

    fn mark(&self, code: u32, name: u8) -> Mark {
        if self.list.has(name) && code == name as u32 {
            Mark::On
        } else {
            Mark::Off
        }
    }
}

impl Named for Words {
    // The promise says the number, whatever the code has for it.
    ghost most = { 32 };

    ghost listed = { λ w. spellings w.list };

    ghost finds_listed = { λ _ _. refl };

    ghost counts_listed = { λ _. refl };

    fn check(names: &[&[u8]]) -> Result<usize, Fault> {
        NameList::<NAMES>::check(names)
    }

    fn new(names: &[&[u8]]) -> Words {
        Words {
            list: NameList::new(names),
        }
    }
}
