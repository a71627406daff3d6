// The lines of a file, and the fields of a line.
ghost use Rattle.std.specs.Prelude.{◌≡◌, ◌≤◌, [], length, MatchOption, MatchResult};
ghost use Rattle.std.specs.Iterator.{at_most};
ghost use Rattle.files.specs.Lines.{Begins, Parted, before};
ghost use Rattle.rules.specs.declared.fault.Fault.TheVariants.{OutOfForm};

use rules::Fault;
use std::alloc::{AllocError, Global};

// What stands before the first `stop`, and what behind it. The library has this for text, and not for bytes.
pub(crate) fn split_once(text: &[u8], stop: u8) -> Option<(&[u8], &[u8])>
    ensures { MatchOption result (length text.now ≤ before stop text.now) (λ p. Parted stop text.now p.0.now p.1.now) }
{
    let at = text.iter().position(|b| *b == stop)?;
    Some((&text[..at], &text[at + 1..]))
}

// What is left of a file, and the number of the line that was read last.
#[derive(Drop)]
pub struct Lines<'a> {
    rest: &'a [u8],
    number: usize,
}

impl<'a> Lines<'a> {
    pub(crate) fn new(file: &'a [u8]) -> Lines<'a> {
        Lines {
            rest: file,
            number: 0,
        }
    }

    pub(crate) fn number(&self) -> usize {
        self.number
    }

    // The next line. It is a fault at its own number if it is missing or has no end, and then nothing is left.
    pub(crate) fn next_line(&mut self) -> Result<&'a [u8], Fault>
        ensures { MatchResult result (λ line. Begins self.old.rest.now line.now self.new.rest.now) (λ f. (f ≡ OutOfForm) × (length self.old.rest.now ≤ before 10 self.old.rest.now) × (self.new.rest.now ≡ [])) }
    {
        self.number = self.number.saturating_add(1);
        let Some((line, rest)) = split_once(self.rest, b'\n') else {
            self.rest = &[];
            return Err(Fault::OutOfForm);
        };
        self.rest = rest;
        Ok(line)
    }
}

// The lines up to the end of the file.
impl<'a> Iterator for Lines<'a> {
    type Item = Result<&'a [u8], Fault>;

    ghost remaining = { λ lines. at_most (length lines.rest.now) };

    fn next(&mut self) -> Option<Result<&'a [u8], Fault>> {
        if self.rest.is_empty() {
            return None;
        }
        Some(self.next_line())
    }
}

// The fields of a line, parted by tabs: one more than it has tabs.
pub(crate) fn fields<'a>(heap: Global, line: &'a [u8]) -> Result<Vec<&'a [u8]>, AllocError> {
    line.split(|b| *b == b'\t').collect(heap)
}
