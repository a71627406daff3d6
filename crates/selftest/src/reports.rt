// Comparing the reports on whole files.
use crate::source::Source;
use crate::texts::{NAMES, Shape, name, rule_text, spoiled};
use reference::Kind;
use std::alloc::{AllocError, Global};

// Whether the library prints the line of the monitor. While it does not, that line is left out of the comparison.
const WATCHES: bool = false;

fn push_names(out: &mut Vec<u8>, count: usize) -> Result<(), AllocError> {
    out.extend_from_slice(b"names")?;
    for name in (0..count).map(name) {
        out.push(b'\t')?;
        out.extend_from_slice(name)?;
    }
    out.push(b'\n')?;
    Ok(())
}

fn push_event(source: &mut Source, kind: Kind, out: &mut Vec<u8>) -> Result<(), AllocError> {
    out.extend_from_slice(b"event\t")?;
    match kind {
        Kind::Words => out.extend_from_slice(source.pick(&NAMES))?,
        Kind::Panel => {
            let levels = source.below(256);
            let answers = if source.one_in(8) {
                source.below(257)
            } else {
                255
            };
            let state = format!(in source.heap; "{levels}\t{answers}")?;
            out.extend_from_slice(state.as_bytes())?;
        }
    }
    out.push(b'\n')?;
    Ok(())
}

// A file, now and then with a byte of it spoiled.
pub fn some_file(source: &mut Source, kind: Kind, shape: Shape) -> Result<Vec<u8>, AllocError> {
    let mut out = Vec::new(source.heap);
    out.extend_from_slice(match kind {
        Kind::Words => b"reading\twords\n",
        Kind::Panel => b"reading\tpanel\n",
    })?;
    push_names(&mut out, source.index(4).saturating_add(shape.names))?;
    out.extend_from_slice(b"rule\t")?;
    let text = rule_text(source, shape)?;
    out.extend_from_slice(text.as_slice())?;
    out.push(b'\n')?;
    for _ in 0..source.below(7) {
        push_event(source, kind, &mut out)?;
    }
    if source.one_in(4) {
        return spoiled(source, out.as_slice());
    }
    Ok(out)
}

// The report without the line of the monitor.
fn unwatched(heap: Global, report: &str) -> Result<String, AllocError> {
    let mut out = String::new(heap);
    for line in report.lines() {
        if WATCHES || !line.starts_with("watch") {
            out.push_str(line)?;
            out.push('\n')?;
        }
    }
    Ok(out)
}

// A file with the rule `[] a` and so many events.
pub fn long_file(heap: Global, events: u32) -> Result<Vec<u8>, AllocError> {
    let mut out = Vec::from_slice(heap, b"reading\twords\nnames\ta\nrule\t[] a\n")?;
    for _ in 0..events {
        out.extend_from_slice(b"event\ta\n")?;
    }
    Ok(out)
}

// Whether the library reports on a file what the reference does.
pub fn same_report(heap: Global, file: &[u8]) -> Result<bool, AllocError> {
    let ours = files::report(heap, file)?;
    let theirs = reference::report(heap, file)?;
    if WATCHES {
        return Ok(ours == theirs);
    }
    Ok(unwatched(heap, ours.as_str())? == unwatched(heap, theirs.as_str())?)
}
