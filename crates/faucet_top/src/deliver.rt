ghost use Rattle.std.specs.Prelude.{◌≡◌, ◌≤◌, [], ◌∷◌, Result, Some, codes};
ghost use Rattle.std.specs.Fmt.{decimal};
ghost use Rattle.fg_outside.specs.Wrote.{line_of};
ghost use Rattle.conf_gather.specs.declared.refused.LoadRefused.TheVariants.{Yaml, Conf};
ghost use Rattle.hub_drive.specs.declared.replay.Replayed.TheVariants.{Read};
ghost use Rattle.faucet_top.specs.Answer.{bench_line, lacks_answer, last_line, refusal, usage, out_of_memory, line, missing_answer, plan_answer, served_line, shown_answer};
ghost use Rattle.faucet_top.specs.Follow.{followed_answer};
ghost use Rattle.faucet_top.specs.Given.{Delivers};
ghost use Rattle.faucet_top.specs.Status.{number_of_status};
ghost use Rattle.faucet_top.specs.Ends.{Ends, refused_status, status_after, status_served};

use crate::asked::Asked;
use bench_story::Measured;
use bgp_load::PeerLacks;
use conf_causes::limit_name;
use conf_gather::LoadRefused;
use conf_shape::{ConfCause, ConfFault};
use fg_outside::{Sink, write_all, write_line};
use hub_drive::{Drove, Replayed};
use itoa::Buffer;
use net_base::Bytes;
use recording::RecordRefused;
use trace_story::{Followed, Missing, Shown};
use yaml_subset::YamlFault;

const USAGE: &str =
    "usage: faucet check, plan, replay, serve, gauge, gauge-serve, bench, trace, walk, bgp or bgp-serve";

/// The exit statuses of the program.
#[derive(Clone, Copy, Debug, PartialEq, Eq)]
pub enum Status {
    /// All was done.
    Done = 0,
    /// The words have no meaning.
    Usage = 1,
    /// A configuration was read and refused, or has no such datapath.
    Refused = 2,
    /// A file isn't there, or a read failed.
    Unread = 3,
    /// A write failed.
    WriteFault = 4,
    /// A record of a recording is refused.
    RecordRefused = 5,
    /// The hub failed.
    HubFault = 6,
    /// As many turns were taken as there may be.
    Spent = 7,
    /// Memory ran out.
    Memory = 8,
    /// A datapath doesn't run, or a barrier is outstanding for it.
    NotReady = 9,
}

impl Status {
    /// The number that the process ends with.
    pub fn number(self) -> u8
        ensures { result ≡ number_of_status self }
    {
        self as u8
    }
}

/// Writes bytes, and ends with this status.
pub fn end_with_bytes<O: Sink>(out: &mut O, bytes: &[u8], status: Status) -> Status
    ensures ends { Ends status bytes.now (O.wrote out.old) (O.wrote out.new) (O.faults out.old) (O.faults out.new) result }
    ensures faults { O.faults out.old ≤ O.faults out.new }
{
    match write_all(out, bytes) {
        Ok(()) => status,
        Err(_) => Status::WriteFault,
    }
}

/// Writes a line of these pieces, and ends with this status.
pub fn end_with_line<E: Sink>(err: &mut E, pieces: &[&str], status: Status) -> Status
    ensures ends { Ends status (line_of pieces.now) (E.wrote err.old) (E.wrote err.new) (E.faults err.old) (E.faults err.new) result }
    ensures faults { E.faults err.old ≤ E.faults err.new }
{
    match write_line(err, pieces) {
        Ok(()) => status,
        Err(_) => Status::WriteFault,
    }
}

/// Says that the words have no meaning.
pub fn deliver_usage<E: Sink>(err: &mut E) -> Status
    ensures ends { Ends Status.Usage usage.err (E.wrote err.old) (E.wrote err.new) (E.faults err.old) (E.faults err.new) result }
    ensures faults { E.faults err.old ≤ E.faults err.new }
{
    end_with_line(err, &[USAGE], Status::Usage)
}

/// Says that memory ran out.
pub fn deliver_out_of_memory<E: Sink>(err: &mut E) -> Status
    ensures ends { Ends Status.Memory out_of_memory.err (E.wrote err.old) (E.wrote err.new) (E.faults err.old) (E.faults err.new) result }
    ensures faults { E.faults err.old ≤ E.faults err.new }
{
    end_with_line(err, &["out of memory"], Status::Memory)
}

/// Says in which line a file's text was refused, and the cause in two pieces.
fn deliver_cause<E: Sink>(err: &mut E, file: &str, number: &str, cause: &str, form: &str) -> Status
    ensures ends { Ends Status.Refused (line (file.now ∷ codes ": line " ∷ number.now ∷ codes ": " ∷ cause.now ∷ form.now ∷ []))
        (E.wrote err.old) (E.wrote err.new) (E.faults err.old) (E.faults err.new) result }
    ensures faults { E.faults err.old ≤ E.faults err.new }
{
    let pieces = [file, ": line ", number, ": ", cause, form];
    end_with_line(err, &pieces, Status::Refused)
}

/// Says where and why a file's text was refused.
fn deliver_fault<E: Sink>(err: &mut E, file: &str, fault: YamlFault) -> Status
    ensures ends { Ends Status.Refused (refusal [] (Yaml file.now fault)).err (E.wrote err.old) (E.wrote err.new) (E.faults err.old) (E.faults err.new) result }
    ensures faults { E.faults err.old ≤ E.faults err.new }
{
    let mut buffer = Buffer::new();
    let number = buffer.format(fault.line);
    let (cause, form) = fault.cause.names();
    deliver_cause(err, file, number, cause, form)
}

/// Says where a configuration was refused, and the cause in two pieces.
fn deliver_at<E: Sink>(err: &mut E, config: &str, path: &str, cause: &str, more: &str) -> Status
    ensures ends { Ends Status.Refused (line (config.now ∷ codes ": " ∷ path.now ∷ codes ": " ∷ cause.now ∷ more.now ∷ []))
        (E.wrote err.old) (E.wrote err.new) (E.faults err.old) (E.faults err.new) result }
    ensures faults { E.faults err.old ≤ E.faults err.new }
{
    let pieces = [config, ": ", path, ": ", cause, more];
    end_with_line(err, &pieces, Status::Refused)
}

/// Says where a configuration breaks a rule, and the rule's number.
fn deliver_conflict<E: Sink>(err: &mut E, config: &str, path: &str, rule: u8) -> Status
    ensures ends { Ends Status.Refused (line (config.now ∷ codes ": " ∷ path.now ∷ codes ": " ∷ codes "Conflict " ∷ decimal rule ∷ []))
        (E.wrote err.old) (E.wrote err.new) (E.faults err.old) (E.faults err.new) result }
    ensures faults { E.faults err.old ≤ E.faults err.new }
{
    let mut buffer = Buffer::new();
    let number = buffer.format(rule);
    deliver_at(err, config, path, "Conflict ", number)
}

/// Says where and why a configuration was refused.
fn deliver_conf_fault<E: Sink>(err: &mut E, config: &str, fault: &ConfFault) -> Status
    ensures ends { Ends Status.Refused (refusal config.now (Conf fault.now)).err (E.wrote err.old) (E.wrote err.new) (E.faults err.old) (E.faults err.new) result }
    ensures faults { E.faults err.old ≤ E.faults err.new }
{
    let path = fault.path.as_str();
    match fault.cause {
        ConfCause::UnknownKey => deliver_at(err, config, path, "UnknownKey", ""),
        ConfCause::LeftOut => deliver_at(err, config, path, "LeftOut", ""),
        ConfCause::Missing => deliver_at(err, config, path, "Missing", ""),
        ConfCause::WrongType => deliver_at(err, config, path, "WrongType", ""),
        ConfCause::OutOfRange => deliver_at(err, config, path, "OutOfRange", ""),
        ConfCause::BadText => deliver_at(err, config, path, "BadText", ""),
        ConfCause::Unresolved => deliver_at(err, config, path, "Unresolved", ""),
        ConfCause::Duplicate => deliver_at(err, config, path, "Duplicate", ""),
        ConfCause::Conflict(rule) => deliver_conflict(err, config, path, rule),
        ConfCause::TooMany(limit) => deliver_at(err, config, path, "TooMany ", limit_name(limit)),
    }
}

/// Says why a file gave no configuration.
pub fn deliver_refusal<E: Sink>(err: &mut E, config: &str, why: &LoadRefused) -> Status
    ensures ends { Ends (refused_status why.now) (refusal config.now why.now).err (E.wrote err.old) (E.wrote err.new) (E.faults err.old) (E.faults err.new) result }
    ensures faults { E.faults err.old ≤ E.faults err.new }
{
    match why {
        LoadRefused::Read(file) | LoadRefused::Absent(file) => {
            end_with_line(err, &[file.as_str(), ": read fault"], Status::Unread)
        }
        LoadRefused::Yaml(file, fault) => deliver_fault(err, file.as_str(), *fault),
        LoadRefused::Conf(fault) => deliver_conf_fault(err, config, fault),
        LoadRefused::IncludeTwice(file) => {
            deliver_at(err, config, file.as_str(), "IncludeTwice", "")
        }
        LoadRefused::IncludeDepth(file) => {
            deliver_at(err, config, file.as_str(), "IncludeDepth", "")
        }
        LoadRefused::Memory => deliver_out_of_memory(err),
    }
}

/// Says why there is no peer to speak with.
pub fn deliver_lacks<E: Sink>(err: &mut E, config: &str, router: &str, lacks: PeerLacks) -> Status
    ensures ends { Ends Status.Refused (lacks_answer config.now router.now lacks).err (E.wrote err.old) (E.wrote err.new) (E.faults err.old) (E.faults err.new) result }
    ensures faults { E.faults err.old ≤ E.faults err.new }
{
    match lacks {
        PeerLacks::Router => {
            let pieces = [config, ": routers.", router, ": Unresolved"];
            end_with_line(err, &pieces, Status::Refused)
        }
        PeerLacks::Peer => {
            let pieces = [config, ": routers.", router, ".bgp: Missing"];
            end_with_line(err, &pieces, Status::Refused)
        }
        PeerLacks::Room => end_with_line(err, &[config, ": TooMany Text"], Status::Refused),
    }
}

/// Says that the record with this number is refused, and the cause.
fn deliver_refused<E: Sink>(err: &mut E, number: &str, cause: &str) -> Status
    ensures ends { Ends Status.RecordRefused (line (codes "recording: record " ∷ number.now ∷ codes ": " ∷ cause.now ∷ []))
        (E.wrote err.old) (E.wrote err.new) (E.faults err.old) (E.faults err.new) result }
    ensures faults { E.faults err.old ≤ E.faults err.new }
{
    let pieces = ["recording: record ", number, ": ", cause];
    end_with_line(err, &pieces, Status::RecordRefused)
}

/// Says which record of a recording is refused, and why.
fn deliver_record<E: Sink>(err: &mut E, refused: RecordRefused) -> Status
    ensures ends { Ends Status.RecordRefused (last_line [] (Read (Some refused))) (E.wrote err.old) (E.wrote err.new) (E.faults err.old) (E.faults err.new) result }
    ensures faults { E.faults err.old ≤ E.faults err.new }
{
    let mut buffer = Buffer::new();
    let number = buffer.format(refused.number);
    deliver_refused(err, number, refused.cause.name())
}

/// Says how the replay of a recording ended, where there is something to say.
pub fn deliver_replayed<E: Sink>(err: &mut E, recording: &str, replayed: Replayed) -> Status
    ensures ends { Ends (status_after replayed) (last_line recording.now replayed) (E.wrote err.old) (E.wrote err.new) (E.faults err.old) (E.faults err.new) result }
    ensures faults { E.faults err.old ≤ E.faults err.new }
{
    match replayed {
        Replayed::Read(None) => Status::Done,
        Replayed::Read(Some(refused)) => deliver_record(err, refused),
        Replayed::Unread => end_with_line(err, &[recording, ": read fault"], Status::Unread),
        Replayed::Spent => end_with_line(err, &["events spent"], Status::Spent),
        Replayed::WriteFault => Status::WriteFault,
        Replayed::Memory => deliver_out_of_memory(err),
    }
}

/// Says how serving ended, where there is something to say.
pub fn deliver_served<E: Sink>(err: &mut E, drove: Drove) -> Status
    ensures ends { Ends (status_served drove) (served_line drove) (E.wrote err.old) (E.wrote err.new) (E.faults err.old) (E.faults err.new) result }
    ensures faults { E.faults err.old ≤ E.faults err.new }
{
    match drove {
        Drove::Done => Status::Done,
        Drove::HubFault => end_with_line(err, &["hub fault"], Status::HubFault),
        Drove::Spent => end_with_line(err, &["events spent"], Status::Spent),
        Drove::WriteFault => Status::WriteFault,
        Drove::Memory => deliver_out_of_memory(err),
    }
}

/// Writes the line of what was measured, of its numbers.
fn deliver_numbers<O: Sink>(
    out: &mut O,
    hosts: &str,
    batches: &str,
    commands: &str,
    sum: &str,
) -> Status
    ensures ends { Ends Status.Done (line (codes "hosts " ∷ hosts.now ∷ codes " batches " ∷ batches.now ∷ codes " commands " ∷ commands.now ∷ codes " sum " ∷ sum.now ∷ []))
        (O.wrote out.old) (O.wrote out.new) (O.faults out.old) (O.faults out.new) result }
    ensures faults { O.faults out.old ≤ O.faults out.new }
{
    let pieces = [
        "hosts ",
        hosts,
        " batches ",
        batches,
        " commands ",
        commands,
        " sum ",
        sum,
    ];
    end_with_line(out, &pieces, Status::Done)
}

/// Writes the line of what was measured.
pub fn deliver_measured<O: Sink>(out: &mut O, measured: Measured) -> Status
    ensures ends { Ends Status.Done (bench_line measured) (O.wrote out.old) (O.wrote out.new) (O.faults out.old) (O.faults out.new) result }
    ensures faults { O.faults out.old ≤ O.faults out.new }
{
    let mut hosts = Buffer::new();
    let mut batches = Buffer::new();
    let mut commands = Buffer::new();
    let mut sum = Buffer::new();
    deliver_numbers(
        out,
        hosts.format(measured.hosts),
        batches.format(measured.batches),
        commands.format(measured.commands),
        sum.format(measured.sum),
    )
}

/// Writes a batch, or says why there is none.
pub fn deliver_plan<O: Sink, E: Sink>(
    out: &mut O,
    err: &mut E,
    config: &str,
    dp: &str,
    made: Result<Option<Bytes>, LoadRefused>,
) -> Status
    ensures answer { Delivers (plan_answer config.now dp.now made) (number_of_status result)
        (O.wrote out.old) (O.wrote out.new) (E.wrote err.old) (E.wrote err.new)
        (O.faults out.old) (O.faults out.new) (E.faults err.old) (E.faults err.new) }
    ensures out_faults { O.faults out.old ≤ O.faults out.new }
    ensures err_faults { E.faults err.old ≤ E.faults err.new }
{
    match made {
        Ok(Some(batch)) => end_with_bytes(out, batch.as_slice(), Status::Done),
        Ok(None) => {
            let pieces = [config, ": dps.", dp, ": Unresolved"];
            end_with_line(err, &pieces, Status::Refused)
        }
        Err(why) => deliver_refusal(err, config, &why),
    }
}

/// Says that a configuration has no datapath with this name.
fn deliver_no_dp<E: Sink>(err: &mut E, config: &str, dp: &str) -> Status
    ensures ends { Ends Status.Refused (line (config.now ∷ codes ": dps." ∷ dp.now ∷ codes ": Unresolved" ∷ []))
        (E.wrote err.old) (E.wrote err.new) (E.faults err.old) (E.faults err.new) result }
    ensures faults { E.faults err.old ≤ E.faults err.new }
{
    let pieces = [config, ": dps.", dp, ": Unresolved"];
    end_with_line(err, &pieces, Status::Refused)
}

/// Says that a datapath of a configuration has no interface with this number.
fn deliver_no_port<E: Sink>(err: &mut E, config: &str, dp: &str, number: &str) -> Status
    ensures ends { Ends Status.Refused (line (config.now ∷ codes ": dps." ∷ dp.now ∷ codes ".interfaces." ∷ number.now ∷ codes ": Unresolved" ∷ []))
        (E.wrote err.old) (E.wrote err.new) (E.faults err.old) (E.faults err.new) result }
    ensures faults { E.faults err.old ≤ E.faults err.new }
{
    let pieces = [config, ": dps.", dp, ".interfaces.", number, ": Unresolved"];
    end_with_line(err, &pieces, Status::Refused)
}

/// Says what isn't there of where a frame is to come in.
pub fn deliver_missing<E: Sink>(err: &mut E, asked: &Asked, missing: Missing) -> Status
    ensures ends { Ends Status.Refused (missing_answer asked.now.config.now asked.now.dp.now asked.now.port missing).err (E.wrote err.old) (E.wrote err.new) (E.faults err.old) (E.faults err.new) result }
    ensures faults { E.faults err.old ≤ E.faults err.new }
{
    let (config, dp) = (asked.config.as_str(), asked.dp.as_str());
    match missing {
        Missing::Dp => deliver_no_dp(err, config, dp),
        Missing::Port => {
            let mut buffer = Buffer::new();
            deliver_no_port(err, config, dp, buffer.format(asked.port.get()))
        }
    }
}

/// Writes what is shown of a frame: its lines, or which datapath isn't ready.
fn deliver_shown<O: Sink, E: Sink>(out: &mut O, err: &mut E, config: &str, shown: &Shown) -> Status
    ensures answer { Delivers (shown_answer config.now shown.now) (number_of_status result)
        (O.wrote out.old) (O.wrote out.new) (E.wrote err.old) (E.wrote err.new)
        (O.faults out.old) (O.faults out.new) (E.faults err.old) (E.faults err.new) }
    ensures out_faults { O.faults out.old ≤ O.faults out.new }
    ensures err_faults { E.faults err.old ≤ E.faults err.new }
{
    match shown {
        Shown::Lines(lines) => end_with_bytes(out, lines.as_str().as_bytes(), Status::Done),
        Shown::NotReady(name) => {
            let pieces = [config, ": ", name.as_str(), ": NotReady"];
            end_with_line(err, &pieces, Status::NotReady)
        }
    }
}

/// Writes what came of following a frame.
pub fn deliver_followed<O: Sink, E: Sink>(
    out: &mut O,
    err: &mut E,
    asked: &Asked,
    followed: Followed,
) -> Status
    ensures answer { Delivers (followed_answer asked.now.config.now asked.now.recording.now followed) (number_of_status result)
        (O.wrote out.old) (O.wrote out.new) (E.wrote err.old) (E.wrote err.new)
        (O.faults out.old) (O.faults out.new) (E.faults err.old) (E.faults err.new) }
    ensures out_faults { O.faults out.old ≤ O.faults out.new }
    ensures err_faults { E.faults err.old ≤ E.faults err.new }
{
    match followed {
        Followed::Showed(shown) => deliver_shown(out, err, asked.config.as_str(), &shown),
        Followed::Ended(replayed) => deliver_replayed(err, asked.recording.as_str(), replayed),
    }
}
