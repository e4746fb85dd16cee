ghost use Rattle.std.specs.Prelude.{◌≡◌, ◌≤◌};
ghost use Rattle.faucet_top.specs.declared.deliver.Status.TheVariants.{Usage};
ghost use Rattle.faucet_top.specs.Ends.{Ends};
ghost use Rattle.recorded_top.specs.RecordedAnswer.{recorded_line, recorded_usage, status_recorded};

use ctl_recorded::RecordedEnd;
use faucet_top::{Status, deliver_served, end_with_line};
use fg_outside::Sink;

const USAGE: &str =
    "usage: faucet_recorded CONFIG --events N --record FILE, and --reload-ms M or --listen A:P";

/// Says that the words have no meaning.
pub fn deliver_usage<E: Sink>(err: &mut E) -> Status
    ensures ends { Ends Usage recorded_usage.err (E.wrote err.old) (E.wrote err.new) (E.faults err.old) (E.faults err.new) result }
    ensures faults { E.faults err.old ≤ E.faults err.new }
{
    end_with_line(err, &[USAGE], Status::Usage)
}

/// Says how serving ended, where there is something to say.
pub fn deliver_recorded<E: Sink>(err: &mut E, record_file: &str, end: RecordedEnd) -> Status
    ensures ends { Ends (status_recorded end) (recorded_line record_file.now end) (E.wrote err.old) (E.wrote err.new) (E.faults err.old) (E.faults err.new) result }
    ensures faults { E.faults err.old ≤ E.faults err.new }
{
    match end {
        RecordedEnd::By(drove) => deliver_served(err, drove),
        RecordedEnd::BrokeOff => {
            end_with_line(err, &[record_file, ": write fault"], Status::WriteFault)
        }
    }
}
