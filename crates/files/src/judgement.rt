// From a file's bytes to the report.
ghost use Rattle.std.specs.Prelude.{◌≡◌, ◌<◌, [], length, IfOk, string_bytes};
ghost use Rattle.rules.specs.declared.fault.Fault.TheVariants.{OutOfForm};
ghost use Rattle.files.specs.declared.answer.Answer.TheVariants.{Refused};
ghost use Rattle.files.specs.Report.{text_of};

use crate::answer::{Answer, Report};
use crate::event_lines::events;
use crate::header::{names_line, rule_line};
use crate::lines::Lines;
use crate::log::Log;
use crate::logged::Logged;
use crate::stop::Stop;
use readings::{BoundRule, Panel, Words};
use rules::Fault;
use std::alloc::{AllocError, Global};

// The most bytes of a file.
pub const MOST_BYTES: usize = 60_000;

// What is said of the lines behind the first, or why nothing is.
fn judged_by<R: Logged + Drop>(heap: Global, lines: &mut Lines) -> Result<Report, Stop> {
    let reading: R = names_line(heap, lines)?;
    let rule = rule_line(lines)?;
    BoundRule::check(&rule, &reading)?;
    let bound = BoundRule::new(rule, reading);
    let trace = events(heap, lines, bound.reading())?;
    Log { bound, trace }.report(heap)
}

// The same for all lines. The first names the reading.
fn judged(heap: Global, lines: &mut Lines) -> Result<Report, Stop> {
    match lines.next_line()? {
        b"reading\twords" => judged_by::<Words>(heap, lines),
        b"reading\tpanel" => judged_by::<Panel>(heap, lines),
        _ => Err(Stop::Fault(Fault::OutOfForm)),
    }
}

fn refused(heap: Global, fault: Fault, line: usize) -> Report
    ensures answer { result.answer ≡ Refused fault line }
    ensures claims { result.claims.items ≡ [] }
{
    Report::bare(heap, Answer::Refused(fault, line))
}

// What is said of a file that was read up to a line.
fn told(heap: Global, stop: Stop, line: usize) -> Result<Report, AllocError> {
    match stop {
        Stop::Fault(fault) => Ok(refused(heap, fault, line)),
        Stop::Whole(fault) => Ok(refused(heap, fault, 0)),
        Stop::Memory(want) => Err(want),
    }
}

// What is said of a file. A fault has the number of the line where the reading of lines stopped.
pub fn judge(heap: Global, file: &[u8]) -> Result<Report, AllocError>
    ensures { 60000 < length file.now → IfOk result (λ a. (a.answer ≡ Refused OutOfForm 0) × (a.claims.items ≡ [])) }
{
    if file.len() > MOST_BYTES {
        return Ok(refused(heap, Fault::OutOfForm, 0));
    }
    let mut lines = Lines::new(file);
    judged(heap, &mut lines).or_else(|stop| told(heap, stop, lines.number()))
}

// The report on a file, as text.
pub fn report(heap: Global, file: &[u8]) -> Result<String, AllocError>
    ensures { 60000 < length file.now → IfOk result (λ t. string_bytes t ≡ text_of (Refused OutOfForm 0) []) }
{
    let report = judge(heap, file)?;
    format!(in heap; "{report}")
}
