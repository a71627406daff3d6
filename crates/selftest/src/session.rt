// One case after another.
use crate::call_lists::{compare_calls, some_calls};
use crate::readings_shown::{Paired, same_names, same_shown, some_code, some_numbers};
use crate::reports::{same_report, some_file};
use crate::rule_texts::compare_text;
use crate::same::{answered, same};
use crate::source::Source;
use crate::tally::Tally;
use crate::texts::{Shape, first_names, name_list, rule_text, spoiled};
use crate::trial::Trial;
use crate::verdicts_said::Room;
use monitor::Monitor;
use readings::BoundRule;
use reference::{Bound, Formula, Reading, count_obligations, open_book, read_formula};
use rules::Rule;
use std::alloc::{AllocError, Global};
use verdicts::{ThreeWay, YesNo};

// Where the inputs come from, and what was found.
#[derive(Drop)]
pub struct Session {
    pub source: Source,
    pub tally: Tally,
}

// A rule in both forms, and the names of its reading.
#[derive(Drop)]
struct Subject {
    rule: Rule,
    formula: Formula,
    names: Vec<&'static [u8]>,
}

impl Session {
    pub fn new(heap: Global, seed: u64) -> Session {
        Session {
            source: Source::new(heap, seed),
            tally: Tally::new(heap),
        }
    }

    // The shape of a text: seldom a long one, which has too much in it.
    fn shape(&mut self) -> Shape {
        if self.source.one_in(12) {
            return Shape {
                signs: self.source.below(260),
                names: self.source.index(11).saturating_add(1),
                deep: self.source.one_in(3),
            };
        }
        let signs = self.source.below(16);
        self.small(signs)
    }

    // A shape with few names.
    fn small(&mut self, signs: u32) -> Shape {
        Shape {
            signs,
            names: self.source.index(4).saturating_add(1),
            deep: false,
        }
    }

    fn texts(&mut self) -> Result<(), AllocError> {
        let shape = self.shape();
        let text = rule_text(&mut self.source, shape)?;
        compare_text(self.source.heap, text.as_slice(), &mut self.tally)?;
        let bad = spoiled(&mut self.source, text.as_slice())?;
        compare_text(self.source.heap, bad.as_slice(), &mut self.tally)
    }

    fn lists<R: Paired>(&mut self) -> Result<(), AllocError> {
        let names = name_list(&mut self.source)?;
        let plain = Reading::new(R::KIND, names.as_slice());
        let alike = same_names::<R>(names.as_slice(), &plain);
        self.tally.counts.lists.note(alike);
        self.tally.met(&plain)?;
        if R::check(names.as_slice()).is_ok() {
            let list = some_numbers(&mut self.source)?;
            let alike = same_shown::<R>(&mut self.source, names.as_slice(), list.as_slice());
            self.tally.counts.shown.note(alike);
        }
        Ok(())
    }

    fn events<R: Paired>(&mut self) -> Result<Vec<u32>, AllocError> {
        let count = self.source.below(8);
        self.source
            .several(count, |source| some_code(source, R::KIND))
    }

    // What is lent: as much as is needed, a little more, or seldom one less.
    fn room(&mut self, needed: usize) -> usize {
        if self.source.one_in(16) {
            return needed.saturating_sub(1);
        }
        needed.saturating_add(self.source.index(3))
    }

    fn judge<R: Paired>(&mut self, ours: BoundRule<R>, plain: &Bound) -> Result<(), AllocError> {
        let events = self.events::<R>()?;
        let trial = Trial {
            ours,
            plain,
            trace: events.as_slice(),
            record: plain.record(self.source.heap, events.as_slice())?,
        };
        self.verdicts(&trial)?;
        self.claims(&trial)
    }

    // The verdicts on both scales; one takes doubt and refuses less.
    fn verdicts<R: Paired>(&mut self, trial: &Trial<R>) -> Result<(), AllocError> {
        let marks = trial.trace.len().saturating_mul(trial.plain.numbers.len());
        let nodes = trial.plain.formula.root();
        let room = Room {
            marks: self.room(marks),
            scratch: self.room(nodes.saturating_mul(2)),
        };
        let alike = trial.same_verdict::<YesNo>(self.source.heap, room)?;
        self.tally.counts.verdicts.note(alike);
        let alike = trial.same_verdict::<ThreeWay>(self.source.heap, room)?;
        self.tally.counts.verdicts.note(alike);
        for takes_doubt in [false, true] {
            let heard = trial.plain.check_events(trial.trace, takes_doubt);
            self.tally.met(&heard)?;
        }
        Ok(())
    }

    // The claims that are written, and some lists made from them.
    fn claims<R: Paired>(&mut self, trial: &Trial<R>) -> Result<(), AllocError> {
        let alike = trial.same_written(self.source.heap)?;
        self.tally.counts.written.note(alike);
        for _ in 0..4 {
            trial.compare_checks(&mut self.source, &mut self.tally)?;
        }
        Ok(())
    }

    fn monitor<R: Paired>(&mut self, ours: BoundRule<R>, plain: &Bound) -> Result<(), AllocError> {
        let counted = answered(count_obligations(self.source.heap, &plain.formula))?;
        let count = Monitor::check(&ours);
        let alike = same(count, &counted, |count, plain| count == *plain);
        self.tally.counts.openings.note(alike);
        self.tally.met(&counted)?;
        if counted.is_err() {
            return Ok(());
        }
        let length = self.source.below(16);
        let calls = some_calls(&mut self.source, R::KIND, length)?;
        let mut book = open_book(self.source.heap, plain)?;
        compare_calls(
            self.source.heap,
            ours,
            calls.as_slice(),
            &mut book,
            &mut self.tally,
        )
    }

    // A rule that can be read, and a few names.
    fn subject(&mut self) -> Result<Option<Subject>, AllocError> {
        let most = if self.source.one_in(12) { 36 } else { 14 };
        let signs = self.source.below(most);
        let shape = self.small(signs);
        let text = rule_text(&mut self.source, shape)?;
        let mut rule = Rule::new();
        let known = if self.source.one_in(10) {
            self.source.index(4)
        } else {
            shape.names
        };
        let names = first_names(self.source.heap, known)?;
        match (
            rule.read(text.as_slice()),
            answered(read_formula(self.source.heap, text.as_slice()))?,
        ) {
            (Ok(()), Ok(formula)) => Ok(Some(Subject {
                rule,
                formula,
                names,
            })),
            _ => Ok(None),
        }
    }

    fn bind<R: Paired>(&mut self) -> Result<(), AllocError> {
        let Some(
            Subject {
                rule,
                formula,
                names,
            },
        ) = self.subject()?
        else {
            return Ok(());
        };
        let reading = R::new(names.as_slice());
        let plain = Reading {
            kind: R::KIND,
            names: names.as_slice(),
        };
        let plain = answered(plain.bind(self.source.heap, formula))?;
        let alike = same(BoundRule::check(&rule, &reading), &plain, |_, _| true);
        self.tally.counts.bindings.note(alike);
        self.tally.met(&plain)?;
        if let Ok(plain) = plain {
            self.judge(BoundRule::new(rule, reading), &plain)?;
            self.monitor(BoundRule::new(rule, reading), &plain)?;
        }
        Ok(())
    }

    fn reports<R: Paired>(&mut self) -> Result<(), AllocError> {
        let signs = self.source.below(14);
        let shape = self.small(signs);
        let file = some_file(&mut self.source, R::KIND, shape)?;
        self.report(file.as_slice())
    }

    pub fn report(&mut self, file: &[u8]) -> Result<(), AllocError> {
        let alike = same_report(self.source.heap, file)?;
        self.tally.counts.reports.note(alike);
        Ok(())
    }

    // One case of each kind, with one kind of reading.
    pub fn run<R: Paired>(&mut self) -> Result<(), AllocError> {
        self.texts()?;
        self.lists::<R>()?;
        self.bind::<R>()?;
        self.reports::<R>()
    }
}
