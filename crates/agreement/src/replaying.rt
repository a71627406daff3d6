// A list of calls on a monitor.
ghost use Rattle.verdicts.specs.Case.{subject_of};
ghost use Rattle.agreement.specs.Agreement.{Agreement};

use monitor::{Call, Monitor, Standing, serve};
use readings::{BoundRule, Reading};
use rules::Fault;

// Opens a monitor on a bound rule, makes every call on it, and closes it. The answer to each call is written down as far as there
// is room, by index: what `get_mut` lends leaves the others unknown afterwards.
pub fn replay<R: Reading + Drop>(
    bound: BoundRule<R>,
    calls: &[Call],
    answers: &mut [Result<Standing, Fault>],
) -> Standing
    ensures { Agreement (subject_of R.meaning bound) calls.now answers.old answers.new result }
{
    let mut monitor = Monitor::open(bound);
    for (i, call) in calls.iter().enumerate() {
        let answer = serve(&mut monitor, *call);
        if i < answers.len() {
            answers[i] = answer;
        }
    }
    monitor.close()
}
