// Compares the library with the judge that was written apart, on inputs made at random. The arguments, if any, are the seed and
// the number of cases.
#![tactic(auto)]

mod call_lists;
mod claim_lists;
mod examples;
mod readings_shown;
mod reports;
mod rule_texts;
mod same;
mod session;
mod source;
mod tally;
mod texts;
mod trial;
mod verdicts_said;

use examples::{fresh, last_answer, obligations};
use readings::{Panel, Words};
use reports::long_file;
use session::Session;
use std::{env, io};
use tally::{Counts, Tally};

// The argument at a place, or what stands for it.
fn argument(rt: &HostRuntime, place: usize, otherwise: u64) -> anyhow::Result<u64> {
    match env::args(rt)?.nth(place) {
        Some(text) => Ok(text.as_str().parse::<u64>()?),
        None => Ok(otherwise),
    }
}

fn print_obligations(rt: &HostRuntime, text: &str) -> io::Result<()> {
    match obligations(text.as_bytes()) {
        Ok(count) => println!(rt; "{text}: {count} obligations"),
        Err(fault) => {
            let number = fault.number();
            let place = fault.place();
            println!(rt; "{text}: refused with {number} at {place}")
        }
    }
}

fn print_fresh(rt: &HostRuntime, text: &str) -> io::Result<()> {
    let (verdict, finality) = fresh(text.as_bytes());
    println!(rt; "{text}: {verdict} {finality} when fresh")
}

fn print_last(rt: &HostRuntime) -> io::Result<()> {
    let (refused, count) = last_answer();
    match refused {
        Some(fault) => {
            let number = fault.number();
            let place = fault.place();
            println!(rt; "4,096 events: refused with {number} at {place}, {count} stand")
        }
        None => println!(rt; "4,096 events: {count} stand"),
    }
}

fn print_examples(rt: &HostRuntime) -> io::Result<()> {
    print_obligations(rt, "o o o o o o o a")?;
    print_obligations(rt, "o o o o o o o o a")?;
    print_fresh(rt, "(<> a) /\\ ([] !a)")?;
    print_fresh(rt, "[] !(a /\\ b)")?;
    print_last(rt)
}

// The first line of the report on a file with so many events.
fn print_long(rt: &HostRuntime, events: u32, session: &mut Session) -> anyhow::Result<()> {
    let file = long_file(rt.alloc(), events)?;
    session.report(file.as_slice())?;
    let report = files::report(rt.alloc(), file.as_slice())?;
    if let Some((line, _)) = report.as_str().split_once('\n') {
        println!(rt; "file with {events} events: {line}")?;
    }
    Ok(())
}

fn print_counts(rt: &HostRuntime, counts: Counts) -> io::Result<()> {
    for (what, count) in [
        ("rule texts", counts.texts),
        ("name lists", counts.lists),
        ("what readings show", counts.shown),
        ("bindings", counts.bindings),
        ("verdicts", counts.verdicts),
        ("claims written", counts.written),
        ("claims checked", counts.checks),
        ("monitors opened", counts.openings),
        ("lists of calls", counts.calls),
        ("reports", counts.reports),
    ] {
        println!(rt; "{what}: {count}")?;
    }
    Ok(())
}

fn print_met(rt: &HostRuntime, tally: &Tally) -> io::Result<()> {
    for (number, met) in tally.refusals.iter() {
        println!(rt; "refusal {number}: met {met} times")?;
    }
    let for_good = tally.for_good;
    let so_far = tally.so_far;
    println!(rt; "standings: {for_good} for good, {so_far} so far")
}

fn main(rt: HostRuntime) -> anyhow::Result<()> {
    print_examples(&rt)?;
    let seed = argument(&rt, 1, 1)?;
    let cases = argument(&rt, 2, 2000)?;
    let mut session = Session::new(rt.alloc(), seed);
    for events in [1599, 1600, 4096, 8000] {
        print_long(&rt, events, &mut session)?;
    }
    for _ in 0..cases {
        session.run::<Words>()?;
        session.run::<Panel>()?;
    }
    print_counts(&rt, session.tally.counts)?;
    print_met(&rt, &session.tally)?;
    Ok(())
}
