// Judges many small files and prints the first line of each report beside its file.
//
// A line of the input is a whole file: `|` stands for a line end, `~` for a tab, and `{12:ab}` for twelve times `ab`. A line
// that begins with `#` is printed as it is.
#![tactic(auto)]

mod shorthand;

use shorthand::expanded;
use std::io;
use std::io::{BufRead, BufReader};

// The first line of a report.
fn first_line(report: &str) -> &str {
    report.split_once('\n').map_or(report, |(line, _)| line)
}

fn show(rt: &HostRuntime, case: &str) -> anyhow::Result<()> {
    if case.starts_with('#') {
        rt.println(case)?;
        return Ok(());
    }
    let file = expanded(rt.alloc(), case)?;
    let report = files::report(rt.alloc(), file.as_slice())?;
    let line = first_line(report.as_str());
    println!(rt; "{line}\t<- {case}")?;
    Ok(())
}

fn main(rt: HostRuntime) -> anyhow::Result<()> {
    for line in BufReader::new(rt.alloc(), rt.stdin())?.lines(rt.alloc()) {
        let case = line?;
        show(&rt, case.as_str())?;
    }
    Ok(())
}
