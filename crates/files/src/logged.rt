// Readings that a file can name, and what the text of an event says.
ghost use Rattle.std.specs.Prelude.{ℕ, List, Option};
ghost use Rattle.readings.specs.Listed.{spellings};
ghost use Rattle.files.specs.Event.{ReadsWord, ReadsState};

use crate::decimal::byte;
use crate::lines::split_once;
use readings::{Named, Panel, Reading, Words};

pub trait Logged: Named {
    ghost spells: { Self → List ℕ → Option ℕ → Type 0 };

    // The code of an event, from what stands behind `event` and a tab; none where that is out of form.
    fn code(&self, text: &[u8]) -> Option<u32>
        ensures { spells self.now text.now result };
}

impl Logged for Words {
    ghost spells = { λ w. ReadsWord (spellings w.list) };

    // A word that is no name is code 0.
    fn code(&self, text: &[u8]) -> Option<u32> {
        if text.contains(&b'\t') {
            return None;
        }
        Some(self.find(text).unwrap_or(0) as u32)
    }
}

impl Logged for Panel {
    ghost spells = { λ _. ReadsState };

    fn code(&self, text: &[u8]) -> Option<u32> {
        let (levels, answers) = split_once(text, b'\t')?;
        let level = byte(levels)?;
        let answer = byte(answers)?;
        // The first answer is worth 256, by what a panel's code is; its reading keeps that number to itself.
        Some(level as u32 + answer as u32 * 256)
    }
}
