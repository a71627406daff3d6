// The report on a whole file.
use crate::book::open_book;
use crate::bound::Bound;
use crate::formula::read_formula;
use crate::meaning::Record;
use crate::reading::{Kind, Reading};
use crate::refusal::{Reason, Refusal, Stop};
use std::alloc::{AllocError, Global};

const OUT_OF_FORM: Refusal = Refusal {
    reason: Reason::OutOfForm,
    place: 0,
};

// The parts of a line, which tabs keep apart.
fn fields(heap: Global, line: &[u8]) -> Result<Vec<&[u8]>, AllocError> {
    line.split(|b| *b == b'\t').collect(heap)
}

// A number up to 255 in decimals.
fn decimal(digits: &[u8]) -> Option<u8> {
    if matches!(digits, [b'0', _, ..]) || !digits.iter().all(|d| d.is_ascii_digit()) {
        return None;
    }
    str::from_utf8(digits).ok()?.parse().ok()
}

// The lines of a file, what stands behind the last of them, and the number of the one that is read.
#[derive(Clone, Copy)]
struct Lines<'a> {
    lines: &'a [&'a [u8]],
    last: &'a [u8],
    at: usize,
}

impl<'a> Lines<'a> {
    fn next(&mut self) -> Result<&'a [u8], Refusal> {
        let line = self.lines.get(self.at).copied();
        self.at = self.at.saturating_add(1);
        line.ok_or(OUT_OF_FORM)
    }

    fn read_kind(&mut self) -> Result<Kind, Refusal> {
        match self.next()? {
            b"reading\twords" => Ok(Kind::Words),
            b"reading\tpanel" => Ok(Kind::Panel),
            _ => Err(OUT_OF_FORM),
        }
    }

    fn read_names(&mut self, heap: Global) -> Result<Vec<&'a [u8]>, Stop> {
        let mut fields = self.next()?.split(|b| *b == b'\t');
        if fields.next() != Some(b"names") {
            return Err(OUT_OF_FORM.into());
        }
        Ok(fields.collect(heap)?)
    }

    fn read_rule(&mut self, heap: Global, reading: Reading) -> Result<Bound, Stop> {
        let text = self.next()?.strip_prefix(b"rule\t").ok_or(OUT_OF_FORM)?;
        reading.bind(heap, read_formula(heap, text)?)
    }

    // All events, and the end of the file.
    fn read_events(&mut self, heap: Global, reading: Reading) -> Result<Vec<u32>, Stop> {
        let mut events = Vec::new(heap);
        for (i, line) in self.lines.iter().enumerate().skip(self.at) {
            self.at = i.saturating_add(1);
            let code = event_code(heap, reading, line)?;
            if events.len() >= 4095 {
                return Err(Reason::ManyEvents.at(4096).into());
            }
            events.push(code)?;
        }
        self.at = self.at.saturating_add(1);
        if !self.last.is_empty() {
            return Err(OUT_OF_FORM.into());
        }
        Ok(events)
    }
}

// The code of an event from its line.
fn event_code(heap: Global, reading: Reading, line: &[u8]) -> Result<u32, Stop> {
    let fields = fields(heap, line)?;
    let code = match (reading.kind, fields.as_slice()) {
        (Kind::Words, [b"event", name]) => Some(word_code(reading, name)),
        (Kind::Panel, [b"event", levels, answers]) => panel_code(levels, answers),
        _ => None,
    };
    Ok(code.ok_or(OUT_OF_FORM)?)
}

// The number of a word, 0 for one that is no name.
fn word_code(reading: Reading, name: &[u8]) -> u32 {
    (reading.find(name).unwrap_or(0) & 255) as u32
}

fn panel_code(levels: &[u8], answers: &[u8]) -> Option<u32> {
    Some(u32::from(decimal(answers)?) * 256 + u32::from(decimal(levels)?))
}

// What a file holds.
#[derive(Drop)]
struct File {
    bound: Bound,
    events: Vec<u32>,
}

fn read_file(heap: Global, lines: &mut Lines) -> Result<File, Stop> {
    let kind = lines.read_kind()?;
    let names = lines.read_names(heap)?;
    let reading = Reading::new(kind, names.as_slice())?;
    Ok(File {
        bound: lines.read_rule(heap, reading)?,
        events: lines.read_events(heap, reading)?,
    })
}

impl File {
    // What the monitor says, as it is printed.
    fn push_watched(&self, heap: Global, out: &mut String) -> Result<(), Stop> {
        if self.bound.formula.obligations(heap)?.len() > 8 {
            out.push_str("watch\tnone\n")?;
            return Ok(());
        }
        let mut book = open_book(heap, &self.bound)?;
        for code in self.events.iter() {
            book.note_event(*code)?;
        }
        let told = book.standing()?;
        let verdict = told.verdict;
        let finality = told.finality;
        write!(out, "watch\t{verdict} {finality}\n")?;
        Ok(())
    }

    fn push_claims(
        &self,
        heap: Global,
        record: &Record,
        out: &mut String,
    ) -> Result<(), AllocError> {
        for claim in self.bound.formula.write_claims(heap, record)? {
            write!(out, "claim\t{claim}\n")?;
        }
        Ok(())
    }

    // The report on a file without faults.
    fn judged(&self, heap: Global) -> Result<String, Stop> {
        let formula = &self.bound.formula;
        let record = self.bound.record(heap, self.events.as_slice())?;
        let verdict = formula.verdict(heap, &record)?;
        let mut out = format!(in heap; "verdict\t{verdict}\n")?;
        if self.bound.some_doubt(self.events.as_slice()) {
            out.push_str("watch\tnone\n")?;
            return Ok(out);
        }
        let claims = record.places().saturating_mul(formula.root());
        if claims > 3200 {
            return Err(Reason::ShortBuffer.at(claims).into());
        }
        self.push_watched(heap, &mut out)?;
        self.push_claims(heap, &record, &mut out)?;
        Ok(out)
    }
}

fn fault_line(heap: Global, why: Refusal, line: usize) -> Result<String, AllocError> {
    format!(in heap; "fault\t{why}\t{line}\n")
}

fn judge(heap: Global, lines: &mut Lines) -> Result<String, Stop> {
    let file = read_file(heap, lines)?;
    // what is refused from here on is in no line
    lines.at = 0;
    file.judged(heap)
}

// THE REPORT on a file.
pub fn report(heap: Global, bytes: &[u8]) -> Result<String, AllocError> {
    if bytes.len() > 60_000 {
        return fault_line(heap, OUT_OF_FORM, 0);
    }
    let mut pieces: Vec<&[u8]> = bytes.split(|b| *b == b'\n').collect(heap)?;
    let last = pieces.pop().unwrap_or(&[]);
    let mut lines = Lines {
        lines: pieces.as_slice(),
        last,
        at: 0,
    };
    judge(heap, &mut lines).or_else(|stop| match stop {
        Stop::Refusal(why) => fault_line(heap, why, lines.at),
        Stop::Memory(why) => Err(why),
    })
}
