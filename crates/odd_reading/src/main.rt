// A reading of a crate's own is bound, valued and judged as those of the library are.
#![tactic(auto)]

mod odd;

use odd::Odd;
use readings::{BoundRule, Reading};
use rules::{Fault, Rule};
use std::io;
use verdicts::{TWO_ROWS, YesNo, evaluate, valuate};

// The verdict of a rule on a trace of codes.
fn judged(text: &[u8], trace: &[u32]) -> Result<YesNo, Fault> {
    let mut rule = Rule::new();
    rule.read(text)?;
    BoundRule::check(&rule, &Odd)?;
    let bound = BoundRule::new(rule, Odd);
    let mut valuation = [YesNo::Broken; 16];
    valuate(&bound, trace, &mut valuation)?;
    let mut scratch = [YesNo::Broken; TWO_ROWS];
    evaluate(bound.rule(), trace.len(), &valuation, &mut scratch)
}

fn print_shown(rt: &HostRuntime, names: &[u8]) -> io::Result<()> {
    for code in 0..4 {
        let (on, doubt) = Odd.show(code, names);
        println!(rt; "code {code}: on {on}, in doubt {doubt}")?;
    }
    Ok(())
}

fn print_possible(rt: &HostRuntime, names: &[u8]) -> io::Result<()> {
    for set in 0..8 {
        if Odd.possible(names, set) {
            println!(rt; "possible: {set}")?;
        }
    }
    Ok(())
}

fn print_judged(rt: &HostRuntime, text: &[u8], trace: &[u32]) -> io::Result<()> {
    match judged(text, trace) {
        Ok(YesNo::Kept) => println!(rt; "kept"),
        Ok(YesNo::Broken) => println!(rt; "broken"),
        Err(fault) => {
            let number = fault.number();
            let place = fault.place();
            println!(rt; "fault {number} at {place}")
        }
    }
}

fn main(rt: HostRuntime) -> io::Result<()> {
    print_shown(&rt, &[1, 2])?;
    print_possible(&rt, &[1, 2])?;
    rt.println("right, right, no name")?;
    print_shown(&rt, &[2, 2, 0])?;
    print_possible(&rt, &[2, 2, 0])?;
    rt.println("verdicts")?;
    print_judged(&rt, b"[] (left <-> right)", &[1, 0, 1])?;
    print_judged(&rt, b"<> left", &[0, 0])?;
    print_judged(&rt, b"<> right", &[0, 2])?;
    print_judged(&rt, b"<> left", &[0, 2])?;
    print_judged(&rt, b"<> left", &[0, 3])?;
    print_judged(&rt, b"left /\\ middle", &[0])
}
