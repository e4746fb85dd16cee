ghost use Rattle.std.specs.Prelude.{◌≡◌, ◌≢◌, ◌≤◌, Some, IfOk};
ghost use Rattle.fg_outside.specs.Counts.{Rose};
ghost use Rattle.faucet_top.specs.Answer.{Load, json_line};
ghost use Rattle.faucet_top.specs.Given.{Checks, GoesOn, Loads};
ghost use Rattle.faucet_top.specs.Status.{number_of_status};

use crate::deliver::{Status, deliver_out_of_memory, deliver_refusal};
use conf_json::json;
use conf_load::load;
use conf_types::Conf;
use fg_outside::{Files, Sink, write_all};
use net_base::{Bytes, NoMemory, Text};
use std::alloc::Global;

/// An accepted configuration's line.
fn make_line(alloc: Global, conf: &Conf) -> Result<Bytes, NoMemory>
    ensures { IfOk result (λ line. line ≡ json_line conf.now) }
{
    let text = json(alloc, conf)?;
    let mut line = Bytes::from_slice(alloc, text.as_str().as_bytes())?;
    line.push(b'\n')?;
    Ok(line)
}

/// Loads a file and writes its line; else the status that ends the run.
fn check_file<F: Files, O: Sink, E: Sink>(
    alloc: Global,
    files: &mut F,
    name: &Text,
    out: &mut O,
    err: &mut E,
) -> Option<Status>
    ensures checked { (made : Load)
        × Loads (F.contents files.old) (Rose (F.absences files.old) (F.absences files.new)) (Rose (F.faults files.old) (F.faults files.new)) (F.refused files.new) name.now made
        × GoesOn name.now made result (O.wrote out.old) (O.wrote out.new) (E.wrote err.old) (E.wrote err.new)
        (O.faults out.old) (O.faults out.new) (E.faults err.old) (E.faults err.new) }
    ensures no_read_fault { result ≢ Some Status.Unread → result ≢ Some Status.WriteFault → F.faults files.new ≡ F.faults files.old }

    ensures contents { F.contents files.new ≡ F.contents files.old }
    ensures faults { F.faults files.old ≤ F.faults files.new }
    ensures absences { F.absences files.old ≤ F.absences files.new }
    ensures out_faults { O.faults out.old ≤ O.faults out.new }
    ensures err_faults { E.faults err.old ≤ E.faults err.new }
{
    let conf = match load(alloc, files, name.as_str()) {
        Ok(conf) => conf,
        Err(why) => return Some(deliver_refusal(err, name.as_str(), &why)),
    };
    let Ok(line) = make_line(alloc, &conf) else {
        return Some(deliver_out_of_memory(err));
    };
    match write_all(out, line.as_slice()) {
        Ok(()) => None,
        Err(_) => Some(Status::WriteFault),
    }
}

/// Loads files in order and writes the line of each; the first that gives no configuration ends the
/// run.
pub fn check_files<F: Files, O: Sink, E: Sink>(
    alloc: Global,
    files: &mut F,
    names: &[Text],
    out: &mut O,
    err: &mut E,
) -> Status
    ensures checked { Checks (F.contents files.old) (Rose (F.absences files.old) (F.absences files.new)) (Rose (F.faults files.old) (F.faults files.new)) (F.refused files.new) names.now
        (number_of_status result) (O.wrote out.old) (O.wrote out.new) (E.wrote err.old) (E.wrote err.new)
        (O.faults out.old) (O.faults out.new) (E.faults err.old) (E.faults err.new) }
    ensures no_read_fault { result ≢ Status.Unread → result ≢ Status.WriteFault → F.faults files.new ≡ F.faults files.old }

    ensures contents { F.contents files.new ≡ F.contents files.old }
    ensures faults { F.faults files.old ≤ F.faults files.new }
    ensures absences { F.absences files.old ≤ F.absences files.new }
    ensures out_faults { O.faults out.old ≤ O.faults out.new }
    ensures err_faults { E.faults err.old ≤ E.faults err.new }
{
    match names {
        [] => Status::Done,
        [name, more @ ..] => match check_file(alloc, files, name, out, err) {
            None => check_files(alloc, files, more, out, err),
            Some(status) => status,
        },
    }
}
