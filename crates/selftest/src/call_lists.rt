// Comparing a monitor's answers to lists of calls.
use crate::readings_shown::some_code;
use crate::same::{answered, same};
use crate::source::Source;
use crate::tally::Tally;
use crate::verdicts_said::Graded;
use monitor::{Call, Standing};
use readings::{BoundRule, Reading};
use reference::{Asked, Book, Finality, Kind, Told, is_term};
use rules::Fault;
use std::alloc::{AllocError, Global};

// A call, more often a mark if `marking`.
fn some_call(source: &mut Source, kind: Kind, marking: bool) -> Call {
    match source.below(if marking { 20 } else { 12 }) {
        0..=4 => Call::Event(some_code(source, kind)),
        5 | 6 => Call::LookAhead(some_code(source, kind)),
        8 | 9 => Call::Back,
        10 => Call::Keep,
        11 => Call::Standing,
        _ => Call::Mark,
    }
}

// A list of calls: events most often, and marks more often than they are taken back.
pub fn some_calls(source: &mut Source, kind: Kind, count: u32) -> Result<Vec<Call>, AllocError> {
    let marking = source.one_in(5);
    source.several(count, |source| some_call(source, kind, marking))
}

// Both types are other crates', so this is a function and no `From`.
fn asked(call: Call) -> Asked {
    match call {
        Call::Event(code) => Asked::Event(code),
        Call::LookAhead(code) => Asked::LookAhead(code),
        Call::Mark => Asked::Mark,
        Call::Back => Asked::Back,
        Call::Keep => Asked::Keep,
        Call::Standing => Asked::Standing,
    }
}

// Whether a residual is the polynomial with this truth table.
fn same_residual(residual: polynomials::Residual, table: &[bool]) -> bool {
    (0..=u8::MAX).all(|product| residual.bit(product) == is_term(table, product))
}

// As `asked`: a function and no `From`.
pub fn finality(finality: monitor::Finality) -> Finality {
    match finality {
        monitor::Finality::SoFar => Finality::SoFar,
        monitor::Finality::ForGood => Finality::ForGood,
    }
}

fn same_standing(standing: Standing, told: &Told) -> bool {
    standing.verdict.grade() == told.verdict
        && finality(standing.finality) == told.finality
        && standing.count == told.count
        && same_residual(standing.residual, told.table.as_slice())
}

// Whether the book gives these answers to these calls.
fn same_answers(
    book: &mut Book,
    calls: &[Call],
    answers: &[Result<Standing, Fault>],
    tally: &mut Tally,
) -> Result<bool, AllocError> {
    for (call, answer) in calls.iter().zip(answers) {
        let told = answered(book.ask(asked(*call)))?;
        if let (Ok(_), Ok(told)) = (answer, &told) {
            tally.told(told.finality);
        }
        if answer.is_err() {
            tally.met(&told)?;
        }
        if !same(*answer, &told, same_standing) {
            return Ok(false);
        }
    }
    Ok(true)
}

// Whether a monitor answers a list of calls as the book does.
pub fn compare_calls<R: Reading + Drop>(
    heap: Global,
    bound: BoundRule<R>,
    calls: &[Call],
    book: &mut Book,
    tally: &mut Tally,
) -> Result<(), AllocError> {
    let unasked: Result<Standing, Fault> = Err(Fault::OutOfForm);
    let mut answers = vec![in heap; unasked; calls.len()]?;
    let closed = agreement::replay(bound, calls, answers.as_mut_slice());
    let same = same_answers(book, calls, answers.as_slice(), tally)?;
    let told = book.standing()?;
    tally
        .counts
        .calls
        .note(same && same_standing(closed, &told));
    Ok(())
}
