// Examples with known answers.
use crate::call_lists::finality;
use crate::verdicts_said::Graded;
use monitor::Monitor;
use readings::{BoundRule, Named, Words};
use reference::{Finality, Grade};
use rules::{Fault, Rule};

// The rule bound to a reading of the words a, b and c.
fn bound(text: &[u8]) -> BoundRule<Words> {
    let names: [&[u8]; 3] = [b"a", b"b", b"c"];
    let mut rule = Rule::new();
    let _ = rule.read(text);
    BoundRule::new(rule, Words::new(&names))
}

// What a monitor says before any event.
pub fn fresh(text: &[u8]) -> (Grade, Finality) {
    let standing = Monitor::open(bound(text)).close();
    (standing.verdict.grade(), finality(standing.finality))
}

// How many obligations a rule has, or why that is refused.
pub fn obligations(text: &[u8]) -> Result<usize, Fault> {
    Monitor::check(&bound(text))
}

// Why event 4,096 is refused, if it is, and how many events stand then.
pub fn last_answer() -> (Option<Fault>, usize) {
    let mut monitor = Monitor::open(bound(b"[] a"));
    let mut refused = None;
    for _ in 0..4096 {
        refused = monitor.event(1).err();
    }
    (refused, monitor.close().count)
}
