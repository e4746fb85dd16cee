ghost use Rattle.std.specs.Prelude.{◌≡◌, ◌≢◌, ◌⊎◌, OnErr};
ghost use Rattle.std.specs.Process.{exit_status};
ghost use Rattle.fg_outside.specs.Counts.{Rose};
ghost use Rattle.fg_outside.specs.Wrote.{appended, AppendsFront};
ghost use Rattle.command_line.specs.Recorded.{recorded_meaning};
ghost use Rattle.faucet_top.specs.Answer.{out_of_memory};
ghost use Rattle.faucet_top.specs.Given.{BreaksOff, Delivers};
ghost use Rattle.recorded_top.specs.RecordedAnswer.{GivesRecorded};

use faucet_top::refuse_for_memory;
use fg_outside::{Files, Hub, Sink};
use net_base::Names;
use recorded_top::faucet_recorded;
use std::alloc::Global;
use std::process::ExitCode;

/// Does what the words ask for, and gives the exit code, the files, the hub and the sink back.
pub fn answer_words<F: Files, H: Hub, S: Sink, O: Sink, E: Sink>(
    alloc: Global,
    words: &Names,
    files: F,
    hub: H,
    sink: S,
    out: &mut O,
    err: &mut E,
) -> (ExitCode, F, H, S)
    // One reply was given, and the process ends with its status.
    ensures { GivesRecorded H.may F.contents F.faults S.wrote (Rose (F.absences files) (F.absences result.1)) (Rose (F.faults files) (F.faults result.1)) (F.refused result.1) (recorded_meaning words.now)
        hub result.2 files result.1 sink result.3
        (λ a. Delivers a (exit_status result.0) (O.wrote out.old) (O.wrote out.new) (E.wrote err.old) (E.wrote err.new)
        (O.faults out.old) (O.faults out.new) (E.faults err.old) (E.faults err.new))
        (λ a. BreaksOff a (exit_status result.0) (O.wrote out.old) (O.wrote out.new) (E.wrote err.old) (E.wrote err.new)
        (O.faults out.old) (O.faults out.new) (E.faults err.old) (E.faults err.new)) }
{
    let (status, files, hub, sink) = faucet_recorded(alloc, words, files, hub, sink, out, err);
    (ExitCode::from(status), files, hub, sink)
}

/// Says that memory ran out, where that came before anything was done, and gives the exit code.
pub fn answer_for_memory<E: Sink>(err: &mut E) -> ExitCode
    ensures memory { ((exit_status result ≡ 8) × (E.wrote err.new ≡ appended (E.wrote err.old) out_of_memory.err)) ⊎ (exit_status result ≡ 4) }
    ensures front { exit_status result ≢ 8 → AppendsFront (E.wrote err.old) (E.wrote err.new) out_of_memory.err }
    ensures write_fault { exit_status result ≢ 8 → Rose (E.faults err.old) (E.faults err.new) }
{
    ExitCode::from(refuse_for_memory(err))
}
