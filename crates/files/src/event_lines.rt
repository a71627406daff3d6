// The lines with the events.
ghost use Rattle.std.specs.Prelude.{◌≤◌, IfOk, vec_len};

use crate::lines::Lines;
use crate::logged::Logged;
use crate::stop::Stop;
use rules::Fault;
use std::alloc::Global;
use verdicts::MOST_EVENTS;

// The code of one event line.
fn event<R: Logged>(reading: &R, line: &[u8]) -> Result<u32, Fault> {
    let text = line.strip_prefix(b"event\t").ok_or(Fault::OutOfForm)?;
    reading.code(text).ok_or(Fault::OutOfForm)
}

// The codes of all events, up to the end of the file.
pub(crate) fn events<R: Logged>(
    heap: Global,
    lines: &mut Lines,
    reading: &R,
) -> Result<Vec<u32>, Stop>
    ensures { IfOk result (λ v. vec_len v ≤ 4095) }
{
    let mut trace = Vec::new(heap);
    for line in lines {
        let code = event(reading, line?)?;
        if trace.len() >= MOST_EVENTS {
            return Err(Stop::Fault(Fault::ManyEvents));
        }
        trace.push(code)?;
    }
    Ok(trace)
}
