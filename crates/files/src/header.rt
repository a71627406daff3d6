// The lines between the first and the events: names and rule.
use crate::lines::{Lines, fields};
use crate::logged::Logged;
use crate::stop::Stop;
use rules::{Fault, Rule};
use std::alloc::Global;

// The reading, from the line with its names.
pub(crate) fn names_line<R: Logged>(heap: Global, lines: &mut Lines) -> Result<R, Stop> {
    let fields = fields(heap, lines.next_line()?)?;
    let [b"names", names @ ..] = fields.as_slice() else {
        return Err(Stop::Fault(Fault::OutOfForm));
    };
    Ok(R::named(names)?)
}

// The rule as read: its text is all behind the first tab.
pub(crate) fn rule_line(lines: &mut Lines) -> Result<Rule, Fault> {
    let line = lines.next_line()?;
    let text = line.strip_prefix(b"rule\t").ok_or(Fault::OutOfForm)?;
    let mut rule = Rule::new();
    rule.read(text)?;
    Ok(rule)
}
