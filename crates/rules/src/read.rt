// A rule from its text.
ghost use Rattle.std.specs.Prelude.{◌≡◌, Ok};
ghost use Rattle.rules.specs.First.{answer, Left};
ghost use Rattle.rules.specs.Grammar.{OneTree};
ghost use Rattle.rules.specs.Reading.{Whole, Within};
ghost use Rattle.rules.specs.Scan.{first_fault};

use crate::fault::Fault;
use crate::parse::parse;
use crate::rule::Rule;

// The most bytes of a text.
pub(crate) const TEXT_BYTES: usize = 512;

impl Rule {
    // READS A TEXT into the rule, which stays as it was where the text is refused.
    pub fn read(&mut self, text: &[u8]) -> Result<(), Fault>
        ensures answers { result ≡ answer (first_fault text.now) tt }
        ensures leaves { Left (first_fault text.now) (self.new ≡ self.old) (Whole text.now self.new) }
        ensures one_tree { OneTree }
        ensures reads_all { Within text.now → result ≡ Ok tt }
    {
        if text.len() > TEXT_BYTES {
            return Err(Fault::LongText);
        }
        let table = parse(text).map_err(|stop| stop.fault(text.len()))?;
        *self = Rule { table };
        Ok(())
    }
}
