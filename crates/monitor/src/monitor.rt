// The monitor and its calls.
ghost use Rattle.std.specs.Prelude.{◌≡◌, ◌<◌, Some, None, MatchResult};
ghost use Rattle.rules.specs.First.{answer};
ghost use Rattle.readings.specs.Meaning.{on_set};
ghost use Rattle.verdicts.specs.Case.{subject_of};
ghost use Rattle.progression.specs.Obligations.{obligations};
ghost use Rattle.monitor.specs.Monitored.{subject, unmonitored};
ghost use Rattle.monitor.specs.History.{opened, event_refusal};
ghost use Rattle.monitor.specs.Serves.{Stands, Says, ServesCall, watches};
ghost use Rattle.monitor.specs.declared.call.Call.{Call};

use crate::guard::Ahead;
use crate::inner::Inner;
use crate::marks::Marks;
use crate::opening::possible_sets;
use crate::point::Point;
use crate::setup::Setup;
use crate::standing::Standing;
use progression::{MOST_OBLIGATIONS, Plan};
use readings::{BoundRule, Reading};
use rules::Fault;
use verdicts::{MOST_EVENTS, YesNo};

#[derive(Drop)]
pub struct Monitor<R: Reading> {
    reading: R,
    inner: Inner,
}

impl<R: Reading> Monitor<R> {
    // How many obligations the rule has, or that they are too many.
    pub fn check(bound: &BoundRule<R>) -> Result<usize, Fault>
        ensures { result ≡ answer (unmonitored bound.now.rule) (obligations bound.now.rule) }
    {
        let plan = Plan::new(*bound.rule());
        let count = plan.count();
        if count > MOST_OBLIGATIONS {
            return Err(Fault::ManyObligations(count));
        }
        Ok(count)
    }

    // A monitor with no events. Of a rule that the check refuses it monitors the constant `false`.
    pub fn open(bound: BoundRule<R>) -> Monitor<R>
        ensures reading { result.reading ≡ bound.reading }
        ensures subject { watches R.meaning result ≡ subject_of R.meaning bound }
        ensures stands { Stands (subject_of R.meaning bound) opened result.inner }
    {
        let possible = possible_sets(bound.reading(), bound.numbers());
        let (reading, rule, names) = bound.into_parts();
        let setup = Setup::new(rule, names, possible);
        let now = Point {
            count: 0,
            residual: setup.plan.fresh(),
        };
        let marks = Marks::none(now);
        Monitor {
            reading,
            inner: Inner { setup, now, marks },
        }
    }

    // How things stand.
    pub fn standing(&self) -> Standing
        ensures { Says (watches R.meaning self.now) self.now.inner result }
    {
        self.inner.setup.standing(self.inner.now)
    }

    // Takes in an event.
    pub fn event(&mut self, code: u32) -> Result<Standing, Fault>
        ensures { ServesCall R.meaning (Call.Event code) self.old self.new result }
    {
        let now = self.inner.now;
        let letters = admitted(&self.reading, &self.inner.setup, now, code)?;
        self.inner.now = Point {
            count: now.count + 1,
            residual: self.inner.setup.plan.after(now.residual, letters),
        };
        Ok(self.standing())
    }

    // What `event` would answer. The monitor is left as it is.
    pub fn look_ahead(&mut self, code: u32) -> Result<Standing, Fault>
        ensures same { self.new ≡ self.old }
        ensures serves { ServesCall R.meaning (Call.LookAhead code) self.old self.new result }
    {
        let now = self.inner.now;
        let (letters, _) = self.reading.show(code, self.inner.setup.letters());
        // The guard is set first, so that a refusal restores too.
        let guard = Ahead::new(&mut self.inner.now.residual, &self.inner.setup, letters);
        admitted(&self.reading, &self.inner.setup, now, code)?;
        Ok(guard.standing(&self.inner.setup, now.count + 1))
    }

    // Sets a mark at the events that stand.
    pub fn mark(&mut self) -> Result<Standing, Fault>
        ensures { ServesCall R.meaning Call.Mark self.old self.new result }
    {
        self.inner.marks.push(self.inner.now)?;
        Ok(self.standing())
    }

    // Strikes the events past the newest mark, and removes that mark.
    pub fn back(&mut self) -> Result<Standing, Fault>
        ensures { ServesCall R.meaning Call.Back self.old self.new result }
    {
        self.inner.now = self.inner.marks.pop()?;
        Ok(self.standing())
    }

    // Removes the newest mark, and strikes nothing.
    pub fn keep(&mut self) -> Result<Standing, Fault>
        ensures { ServesCall R.meaning Call.Keep self.old self.new result }
    {
        self.inner.marks.pop()?;
        Ok(self.standing())
    }

    // How things stand at the end. A monitor that is closed is gone.
    pub fn close(self) -> Standing
    where
        R: Drop,
        ensures { Says (watches R.meaning self) self.inner result }
    {
        self.standing()
    }
}

// The letters that are on at the code of an event that comes at this point.
fn admitted<R: Reading>(reading: &R, setup: &Setup, now: Point, code: u32) -> Result<u8, Fault>
    ensures { MatchResult result (λ on. (event_refusal (subject (R.meaning reading.now) setup.now) now.count code ≡ None) × (on ≡ on_set (R.meaning reading.now) code (subject (R.meaning reading.now) setup.now).numbers) × (now.count < 4095)) (λ f. event_refusal (subject (R.meaning reading.now) setup.now) now.count code ≡ Some f) }
{
    if now.count >= MOST_EVENTS {
        return Err(Fault::ManyEvents);
    }
    let (on, _) = verdicts::admitted::<YesNo, R>(reading, setup.letters(), now.count + 1, code)?;
    Ok(on)
}
