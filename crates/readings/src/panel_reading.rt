// Making a panel reading, and asking it.
ghost use Rattle.std.specs.Prelude.{◌≡◌, min, length, refl};
ghost use Rattle.readings.specs.Listed.{spellings};
ghost use Rattle.readings.specs.Panel.{panel_meaning, told, asked, spread_of};
ghost use Rattle.std.proofs.Common.{arith, rules};
ghost use Rattle.readings.specs.Finding.{spellings_length, found_within};

use crate::listed::NameList;
use crate::mark::Mark;
use crate::named::Named;
use crate::panel::{NAMES, Panel};
use crate::reading::Reading;
use crate::set::{PLACES, bit, has, set_of};
use rules::Fault;

// The number of codes.
const CODES: u32 = 65_536;

// What the first answer is worth in a code.
const ANSWERS: u32 = 256;

impl Panel {
    // The places that are on wherever those of the set are: each has a name's number that a place of the set has.
    fn spread(&self, names: &[u8], set: u8) -> u8
        ensures { result ≡ spread_of (length (spellings self.now.list)) names.now set }
    {
        set_of(
            names,
            |name| self.list.has(name) && is_asked(names, set, name),
        )
    }
}

// What an answer and a level say. A level that was not answered says nothing.
fn told_mark(answer: bool, level: bool) -> Mark
    ensures { result ≡ told answer level }
{
    if !answer {
        Mark::Doubt
    } else if level {
        Mark::On
    } else {
        Mark::Off
    }
}

// Whether a place of the set has this number.
fn is_asked(names: &[u8], set: u8, name: u8) -> bool
    ensures { result ≡ asked names.now set name (min (length names.now) 8) }
{
    let mut places = names[..names.len().min(PLACES)].iter().enumerate();
    places.any(|(i, other)| *other == name && has(set, i))
}

impl Reading for Panel {
    ghost meaning = { panel_meaning };

    ghost some = { first_of (Prim.search rules, Prim.grind (arith, Self.row.coded.inj)) };

    ghost few = { λ s. omega (arith, spellings_length s.list, s.list.few) };

    ghost numbered = { λ s n k e. found_within (spellings s.list) n k e };

    fn codes(&self) -> u32 {
        CODES
    }

    fn find(&self, name: &[u8]) -> Option<u8> {
        self.list.find(name)
    }

    fn mark(&self, code: u32, name: u8) -> Mark {
        if code >= CODES || !self.list.has(name) {
            return Mark::Off;
        }
        let i = name as usize - 1;
        told_mark(bit(code / ANSWERS, i), bit(code % ANSWERS, i))
    }

    // With all answered the levels are free. So a set is possible if it has all the places that it spreads to, and no other.
    fn possible(&self, names: &[u8], set: u8) -> bool {
        self.spread(names, set) == set
    }
}

impl Named for Panel {
    // The promise says the number, whatever the code has for it.
    ghost most = { 8 };

    ghost listed = { λ p. spellings p.list };

    ghost finds_listed = { λ _ _. refl };

    ghost counts_listed = { λ _. refl };

    fn check(names: &[&[u8]]) -> Result<usize, Fault> {
        NameList::<NAMES>::check(names)
    }

    fn new(names: &[&[u8]]) -> Panel {
        Panel {
            list: NameList::new(names),
        }
    }
}
