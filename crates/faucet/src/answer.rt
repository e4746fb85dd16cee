ghost use Rattle.std.specs.Prelude.{◌≡◌, ◌≢◌, ◌⊎◌, ◌-◌, ◌^◌, ◌<◌, IfOk, OnErr};
ghost use Rattle.std.specs.Process.{exit_status};
ghost use Rattle.fg_outside.specs.Counts.{Rose};
ghost use Rattle.fg_outside.specs.Wrote.{appended, AppendsFront};
ghost use Rattle.command_line.specs.Meaning.{meaning};
ghost use Rattle.faucet_top.specs.Answer.{out_of_memory};
ghost use Rattle.faucet_top.specs.Any.{GivesAny};
ghost use Rattle.faucet_top.specs.Given.{NamesUnread, ReadsRecording};
ghost use Rattle.faucet_top.specs.Serving.{LooksOnce};
ghost use Rattle.faucet.specs.Listens.{listen_in};

use command_line::{Job, Listen, read_words};
use faucet_top::{faucet, refuse_for_memory};
use fg_outside::{Files, Hub, Sink};
use net_base::{Names, NoMemory};
use std::alloc::Global;
use std::process::ExitCode;

/// Where the words ask for connections to be listened for, if they do.
pub fn listen_of(alloc: Global, words: &Names) -> Result<Option<Listen>, NoMemory>
    ensures { IfOk result (λ listen. listen ≡ listen_in (meaning words.now)) }
{
    match read_words(alloc, words)? {
        Some(
            Job::Serve { listen, .. }
            | Job::GaugeServe { listen, .. }
            | Job::BgpServe { listen, .. },
        ) => Ok(Some(listen)),
        _ => Ok(None),
    }
}

/// Does what the words ask for, on this hub where they need one, and gives the exit code, the files and the hub
/// back.
pub fn answer_words<F: Files, H: Hub, O: Sink, E: Sink>(
    alloc: Global,
    words: &Names,
    files: F,
    hub: H,
    out: &mut O,
    err: &mut E,
) -> (ExitCode, F, H)
    // One reply was given, and the process ends with its status.
    ensures gives { GivesAny H.may F.contents F.faults (Rose (F.absences files) (F.absences result.1)) (Rose (F.faults files) (F.faults result.1)) (F.refused result.1) (meaning words.now)
        hub result.2 files result.1 (exit_status result.0) (O.wrote out.old) (O.wrote out.new) (E.wrote err.old) (E.wrote err.new)
        (O.faults out.old) (O.faults out.new) (E.faults err.old) (E.faults err.new) }

    // But for a look of `serve` no read that failed is passed over: it ends the process with 3, or with 4 where the line that says so
    // couldn't be written.
    ensures no_read_fault { LooksOnce (meaning words.now) → exit_status result.0 ≢ 3 → exit_status result.0 ≢ 4
        → F.faults files < 2 ^ 64 - 1 → F.faults result.1 ≡ F.faults files }

    // Of `replay` and `gauge` the file that the line at 3 names is the one that was refused last.
    ensures named { ReadsRecording (meaning words.now) → exit_status result.0 ≡ 3
        → F.faults files < 2 ^ 64 - 1 → NamesUnread (F.refused result.1) (E.wrote err.old) (E.wrote err.new) }
{
    let (status, files, hub) = faucet(alloc, words, files, hub, out, err);
    (ExitCode::from(status), files, hub)
}

/// Says that memory ran out, where that came before anything was done, and gives the exit code.
pub fn answer_for_memory<E: Sink>(err: &mut E) -> ExitCode
    ensures memory { ((exit_status result ≡ 8) × (E.wrote err.new ≡ appended (E.wrote err.old) out_of_memory.err)) ⊎ (exit_status result ≡ 4) }
    ensures front { exit_status result ≢ 8 → AppendsFront (E.wrote err.old) (E.wrote err.new) out_of_memory.err }
    ensures write_fault { exit_status result ≢ 8 → Rose (E.faults err.old) (E.faults err.new) }
{
    ExitCode::from(refuse_for_memory(err))
}
