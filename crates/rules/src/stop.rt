// Where the reading of a text stops, and the fault that it is.
ghost use Rattle.std.specs.Prelude.{◌≡◌, length};
ghost use Rattle.rules.specs.Faults.{fault_of};
ghost use Rattle.rules.specs.Signs.{stop_at};

use crate::fault::Fault;
use crate::lex::skip;
use crate::sign::{Stop, Why};

impl Stop {
    // At the first byte of `s`, which is left of the text.
    pub(crate) fn here(why: Why, s: &[u8]) -> Stop
        ensures { result ≡ record { why = why; left = length s.now } }
    {
        Stop { why, left: s.len() }
    }

    // At the next byte of `s` that is not blank.
    pub(crate) fn at(why: Why, s: &[u8]) -> Stop
        ensures { result ≡ stop_at why s.now }
    {
        Stop::here(why, skip(s))
    }

    // Why the reading of a text of `total` bytes stops, and at which byte.
    pub(crate) fn fault(self, total: usize) -> Fault
        ensures { result ≡ fault_of total self }
    {
        let at = total.saturating_sub(self.left);
        match self.why {
            Why::NoSign => Fault::NoSign(at),
            Why::LongName => Fault::LongName(at),
            Why::Misplaced => Fault::Misplaced(at),
            Why::DeepNesting => Fault::DeepNesting(at),
            Why::ManyNodes => Fault::ManyNodes(at),
            Why::ManyLetters => Fault::ManyLetters(at),
        }
    }
}
