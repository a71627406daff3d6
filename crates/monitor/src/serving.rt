// Calls as values.
ghost use Rattle.monitor.specs.Serves.{ServesCall};

use crate::call::Call;
use crate::monitor::Monitor;
use crate::standing::Standing;
use readings::Reading;
use rules::Fault;

// Makes one call on a monitor. A switch and no closures: a list of calls is compared, kept and sent as values.
pub fn serve<R: Reading>(monitor: &mut Monitor<R>, call: Call) -> Result<Standing, Fault>
    ensures { ServesCall R.meaning call monitor.old monitor.new result }
{
    match call {
        Call::Event(code) => monitor.event(code),
        Call::LookAhead(code) => monitor.look_ahead(code),
        Call::Mark => monitor.mark(),
        Call::Back => monitor.back(),
        Call::Keep => monitor.keep(),
        Call::Standing => Ok(monitor.standing()),
    }
}
