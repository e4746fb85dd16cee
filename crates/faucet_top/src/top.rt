ghost use Rattle.std.specs.Prelude.{◌≡◌, ◌≢◌, ◌-◌, ◌^◌, ◌<◌, ◌≤◌, ◌⊎◌, ℕ, List, Some, None, Ok};
ghost use Rattle.fg_outside.specs.Counts.{Rose};
ghost use Rattle.fg_outside.specs.Contents.{Contents};
ghost use Rattle.fg_outside.specs.Wrote.{appended, AppendsFront};
ghost use Rattle.conf_types.specs.Configuration.{Configuration};
ghost use Rattle.conf_load.specs.Loaded.{loaded};
ghost use Rattle.command_line.specs.declared.meaning.Job.TheVariants.{Bench, Bgp, BgpServe, Check, Gauge, GaugeServe, Plan, Replay, Serve};
ghost use Rattle.trace_story.specs.declared.showing.How.{How};
ghost use Rattle.trace_story.specs.declared.showing.Shown.TheVariants as shown;
ghost use Rattle.command_line.specs.declared.values.Listen.{Listen};
ghost use Rattle.command_line.specs.Meaning.{meaning};
ghost use Rattle.faucet_top.specs.Answer.{out_of_memory};
ghost use Rattle.gauge_conf.specs.declared.gauge.GaugeConf.{GaugeConf};
ghost use Rattle.gauge_load.specs.Loaded.{gauge_of};
ghost use Rattle.bgp_load.specs.declared.found.LoadedPeer.{LoadedPeer};
ghost use Rattle.bgp_load.specs.Peers.{loaded_peer};
ghost use Rattle.faucet_top.specs.Any.{GivesAny};
ghost use Rattle.faucet_top.specs.Follow.{IsCutShort, IsFollowed, Traced, job_for};
ghost use Rattle.faucet_top.specs.Given.{AreAccepted, Gives, IsMeasured, IsOpened, IsReplayed, IsSpoken, IsStatus, IsStatusOf, IsWatched, NamesUnread, ReadsRecording, StatusFor};
ghost use Rattle.recording.specs.declared.refused.RecordRefused.{RecordRefused};
ghost use Rattle.hub_drive.specs.declared.drive.Drove.{Drove};
ghost use Rattle.faucet_top.specs.Ends.{status_served};
ghost use Rattle.faucet_top.specs.Serving.{HasFrame, IsItsEnd, IsLocal, IsServed, LooksOnce};
ghost use Rattle.faucet_top.specs.Speaking.{IsHubSpoken};
ghost use Rattle.faucet_top.specs.Watching.{IsHubWatched};
ghost use Rattle.faucet_top.specs.Status.{number_of_status};

use crate::asked::Asked;
use crate::bench::measure_story;
use crate::bgp::{speak_on_hub, speak_on_recording};
use crate::check::check_files;
use crate::deliver::{Status, deliver_out_of_memory, deliver_plan, deliver_refusal, deliver_usage};
use crate::follow::follow_frame;
use crate::gauge::watch_switches;
use crate::plan::make_plan;
use crate::replay::run_recording;
use crate::serve::{Pace, serve_switches};
use crate::units::Units;
use bench_story::laws::the_configuration_is_valid;
use bgp_speaker::laws::a_text_is_new;
use command_line::laws::words_ask_for_what_is_written;
use command_line::{Job, read_words};
use conf_load::laws::a_loaded_configuration_is_valid;
use conf_load::load;
use ctl_drive::Steered;
use fg_outside::{Files, Hub, Sink};
use gauge_drive::DrivenGauge;
use gauge_drive::laws::what_is_printed_are_the_lines;
use gauge_load::load_gauge;
use hub_drive::Outlet;
use law_stories::whatever_happens_is_right;
use net_base::Names;
use opening_batch::laws::an_opening_batch_opens_the_datapath;
use std::alloc::Global;
use trace_story::How;

/// Does a job that needs no hub.
fn do_job<F: Files, O: Sink, E: Sink>(
    alloc: Global,
    job: &Job,
    files: F,
    out: &mut O,
    err: &mut E,
) -> (Status, F)
    requires local { IsLocal (Some job.now) }
    requires frame { HasFrame (Some job.now) }
    ensures gives { Gives (Some job.now) (F.contents files) (Rose (F.absences files) (F.absences result.1)) (Rose (F.faults files) (F.faults result.1)) (F.refused result.1)
        (number_of_status result.0) (O.wrote out.old) (O.wrote out.new) (E.wrote err.old) (E.wrote err.new)
        (O.faults out.old) (O.faults out.new) (E.faults err.old) (E.faults err.new) }
    ensures named { ReadsRecording (Some job.now) → result.0 ≡ Status.Unread → F.faults files < 2 ^ 64 - 1 → NamesUnread (F.refused result.1) (E.wrote err.old) (E.wrote err.new) }
    ensures no_read_fault { result.0 ≢ Status.Unread → result.0 ≢ Status.WriteFault → F.faults files < 2 ^ 64 - 1 → F.faults result.1 ≡ F.faults files }

    ensures contents { F.contents result.1 ≡ F.contents files }
    ensures faults { F.faults files ≤ F.faults result.1 }
    ensures absences { F.absences files ≤ F.absences result.1 }
    ensures out_faults { O.faults out.old ≤ O.faults out.new }
    ensures err_faults { E.faults err.old ≤ E.faults err.new }
{
    let mut files = files;
    match job {
        Job::Check(names) => {
            let status = check_files(alloc, &mut files, names.as_slice(), out, err);
            (status, files)
        }
        Job::Plan { config, dp } => {
            let made = make_plan(alloc, &mut files, config.as_str(), dp.as_str());
            let status = deliver_plan(out, err, config.as_str(), dp.as_str(), made);
            (status, files)
        }
        Job::Replay { config, recording } => match load(alloc, &mut files, config.as_str()) {
            Ok(conf) => {
                let machine = Steered::new(alloc, conf, Units::new());
                run_recording(alloc, machine, Outlet::Records, recording, files, out, err)
            }
            Err(why) => (deliver_refusal(err, config.as_str(), &why), files),
        },
        Job::Gauge { config, recording } => match load_gauge(alloc, &mut files, config.as_str()) {
            Ok(conf) => {
                let machine = DrivenGauge::new(alloc, conf);
                run_recording(alloc, machine, Outlet::Nowhere, recording, files, out, err)
            }
            Err(why) => (deliver_refusal(err, config.as_str(), &why), files),
        },
        Job::Bench(hosts) => {
            let status = measure_story(alloc, *hosts, out, err);
            (status, files)
        }
        Job::Trace {
            config,
            recording,
            dp,
            port,
            frame,
        } => {
            let asked = Asked {
                how: How::Trace,
                config,
                recording,
                dp,
                port: *port,
                frame,
            };
            follow_frame(alloc, &asked, files, out, err)
        }
        Job::Walk {
            config,
            recording,
            dp,
            port,
            frame,
        } => {
            let asked = Asked {
                how: How::Walk,
                config,
                recording,
                dp,
                port: *port,
                frame,
            };
            follow_frame(alloc, &asked, files, out, err)
        }
        Job::Bgp {
            config,
            router,
            recording,
        } => {
            let config = config.as_str();
            let router = router.as_str();
            speak_on_recording(alloc, config, router, recording, files, out, err)
        }
        Job::Serve { .. } => unreachable!(),
        Job::GaugeServe { .. } => unreachable!(),
        Job::BgpServe { .. } => unreachable!(),
    }
}

/// Does a job that needs no hub, and gives the exit status and the files back (`faucet`).
pub fn local<F: Files, O: Sink, E: Sink>(
    alloc: Global,
    job: &Job,
    files: F,
    out: &mut O,
    err: &mut E,
) -> (u8, F)
    requires local { IsLocal (Some job.now) }
    requires frame { HasFrame (Some job.now) }

    // One reply was given, as `faucet` gives it.
    ensures gives { Gives (Some job.now) (F.contents files) (Rose (F.absences files) (F.absences result.1)) (Rose (F.faults files) (F.faults result.1)) (F.refused result.1)
        result.0 (O.wrote out.old) (O.wrote out.new) (E.wrote err.old) (E.wrote err.new)
        (O.faults out.old) (O.faults out.new) (E.faults err.old) (E.faults err.new) }

    // The status is that of the answer, where the files are told, but for what fails on the way.
    ensures no_hub { result.0 ≢ 6 }
    ensures told { (held : Contents) → F.contents files ≡ Some held
        → StatusFor result.0 (IsStatusOf (Some job.now) (held 0)) (Rose (F.faults files) (F.faults result.1)) }
    ensures usage { result.0 ≢ 1 }
    ensures unread { result.0 ≡ 3 → Rose (F.absences files) (F.absences result.1) ⊎ Rose (F.faults files) (F.faults result.1) }
    ensures named { ReadsRecording (Some job.now) → result.0 ≡ 3 → F.faults files < 2 ^ 64 - 1 → NamesUnread (F.refused result.1) (E.wrote err.old) (E.wrote err.new) }
    ensures no_read_fault { result.0 ≢ 3 → result.0 ≢ 4 → F.faults files < 2 ^ 64 - 1 → F.faults result.1 ≡ F.faults files }
    ensures write_fault { result.0 ≡ 4 → Rose (O.faults out.old) (O.faults out.new) ⊎ Rose (E.faults err.old) (E.faults err.new) }
    ensures no_write_fault { result.0 ≢ 4 → (O.faults out.new ≡ O.faults out.old) × (E.faults err.new ≡ E.faults err.old) }
    ensures statuses { IsStatus result.0 }

    // At status 0, and at 5, what stands on the streams is right, as `faucet` says it of each command.
    ensures checked { (names : List (List ℕ)) (held : Contents) → job.now ≡ Check names → F.contents files ≡ Some held
        → result.0 ≡ 0 → AreAccepted names (held 0) (O.wrote out.old) (O.wrote out.new) }
    ensures opened { (config dp : List ℕ) (held : Contents) → job.now ≡ Plan config dp → F.contents files ≡ Some held
        → result.0 ≡ 0 → IsOpened config dp (held 0) (O.wrote out.old) (O.wrote out.new) }
    ensures replayed { (config recording : List ℕ) (held : Contents) → job.now ≡ Replay config recording → F.contents files ≡ Some held
        → result.0 ≡ 0 → IsReplayed config recording None (held 0) (O.wrote out.old) (O.wrote out.new) (E.wrote err.old) (E.wrote err.new) }
    ensures refused_record { (config recording : List ℕ) (held : Contents) → job.now ≡ Replay config recording → F.contents files ≡ Some held
        → result.0 ≡ 5 → (refused : RecordRefused) × IsReplayed config recording (Some refused) (held 0) (O.wrote out.old) (O.wrote out.new) (E.wrote err.old) (E.wrote err.new) }
    ensures watched { (config recording : List ℕ) (held : Contents) → job.now ≡ Gauge config recording → F.contents files ≡ Some held
        → result.0 ≡ 0 → IsWatched config recording None (held 0) (O.wrote out.old) (O.wrote out.new) (E.wrote err.old) (E.wrote err.new) }
    ensures watched_to { (config recording : List ℕ) (held : Contents) → job.now ≡ Gauge config recording → F.contents files ≡ Some held
        → result.0 ≡ 5 → (refused : RecordRefused) × IsWatched config recording (Some refused) (held 0) (O.wrote out.old) (O.wrote out.new) (E.wrote err.old) (E.wrote err.new) }
    ensures spoken { (config router recording : List ℕ) (held : Contents) → job.now ≡ Bgp config router recording → F.contents files ≡ Some held
        → result.0 ≡ 0 → IsSpoken config router recording None (held 0) (O.wrote out.old) (O.wrote out.new) (E.wrote err.old) (E.wrote err.new) }
    ensures spoken_to { (config router recording : List ℕ) (held : Contents) → job.now ≡ Bgp config router recording → F.contents files ≡ Some held
        → result.0 ≡ 5 → (refused : RecordRefused) × IsSpoken config router recording (Some refused) (held 0) (O.wrote out.old) (O.wrote out.new) (E.wrote err.old) (E.wrote err.new) }
    ensures measured { (hosts : ℕ) → job.now ≡ Bench hosts → result.0 ≡ 0 → IsMeasured hosts (O.wrote out.old) (O.wrote out.new) }
    ensures followed { (how : How) (traced : Traced) (held : Contents) → job.now ≡ job_for how traced → F.contents files ≡ Some held
        → result.0 ≡ 0 → (lines : List ℕ) × IsFollowed how traced (held 0) (shown.Lines lines) (O.wrote out.old) (O.wrote out.new) (E.wrote err.old) (E.wrote err.new) }
    ensures not_ready { (how : How) (traced : Traced) (held : Contents) → job.now ≡ job_for how traced → F.contents files ≡ Some held
        → result.0 ≡ 9 → (name : List ℕ) × IsFollowed how traced (held 0) (shown.NotReady name) (O.wrote out.old) (O.wrote out.new) (E.wrote err.old) (E.wrote err.new) }
    ensures cut_short { (how : How) (traced : Traced) (held : Contents) → job.now ≡ job_for how traced → F.contents files ≡ Some held
        → result.0 ≡ 5 → (refused : RecordRefused) × IsCutShort traced refused (held 0) (O.wrote out.old) (O.wrote out.new) (E.wrote err.old) (E.wrote err.new) }

    // The files are handed back.
    ensures contents { F.contents result.1 ≡ F.contents files }
    ensures faults { F.faults files ≤ F.faults result.1 }
    ensures absences { F.absences files ≤ F.absences result.1 }
    ensures out_faults { O.faults out.old ≤ O.faults out.new }
    ensures err_faults { E.faults err.old ≤ E.faults err.new }
{
    a_loaded_configuration_is_valid();
    an_opening_batch_opens_the_datapath();
    whatever_happens_is_right();
    what_is_printed_are_the_lines();
    a_text_is_new();
    the_configuration_is_valid();
    let (status, files) = do_job(alloc, job, files, out, err);
    (status.number(), files)
}

/// Does a job, on the hub where it needs one.
fn do_any<F: Files, H: Hub, O: Sink, E: Sink>(
    alloc: Global,
    job: &Job,
    files: F,
    hub: H,
    out: &mut O,
    err: &mut E,
) -> (u8, F, H)
    requires frame { HasFrame (Some job.now) }
    ensures gives { GivesAny H.may F.contents F.faults (Rose (F.absences files) (F.absences result.1)) (Rose (F.faults files) (F.faults result.1)) (F.refused result.1) (Some job.now)
        hub result.2 files result.1 result.0 (O.wrote out.old) (O.wrote out.new) (E.wrote err.old) (E.wrote err.new)
        (O.faults out.old) (O.faults out.new) (E.faults err.old) (E.faults err.new) }

    ensures statuses { IsStatus result.0 }
    ensures named { ReadsRecording (Some job.now) → result.0 ≡ 3 → F.faults files < 2 ^ 64 - 1 → NamesUnread (F.refused result.1) (E.wrote err.old) (E.wrote err.new) }
    ensures no_read_fault { LooksOnce (Some job.now) → result.0 ≢ 3 → result.0 ≢ 4 → F.faults files < 2 ^ 64 - 1 → F.faults result.1 ≡ F.faults files }
    ensures hub_fault { result.0 ≡ 6 → Rose (H.faults hub) (H.faults result.2) }
    ensures no_hub_fault { result.0 ≢ 6 → result.0 ≢ 4 → H.faults result.2 ≡ H.faults hub }
    ensures hub { IsLocal (Some job.now) → result.2 ≡ hub }
    ensures contents { LooksOnce (Some job.now) → F.contents result.1 ≡ F.contents files }
    ensures hub_faults { H.faults hub ≤ H.faults result.2 }
    ensures faults { F.faults files ≤ F.faults result.1 }
    ensures absences { F.absences files ≤ F.absences result.1 }
    ensures out_faults { O.faults out.old ≤ O.faults out.new }
    ensures err_faults { E.faults err.old ≤ E.faults err.new }
{
    match job {
        Job::Serve {
            config,
            events,
            reload_ms,
            ..
        } => {
            let pace = Pace {
                events: *events,
                reload_ms: *reload_ms,
            };
            let (status, files, hub) = serve_switches(alloc, config, pace, files, hub, out, err);
            (status.number(), files, hub)
        }
        Job::GaugeServe { config, events, .. } => {
            let (mut files, mut hub) = (files, hub);
            let config = config.as_str();
            let status = watch_switches(alloc, config, *events, &mut files, &mut hub, out, err);
            (status.number(), files, hub)
        }
        Job::BgpServe {
            config,
            router,
            events,
            ..
        } => {
            let (mut files, mut hub) = (files, hub);
            let config = config.as_str();
            let router = router.as_str();
            let (held, on) = (&mut files, &mut hub);
            let status = speak_on_hub(alloc, config, router, *events, held, on, out, err);
            (status.number(), files, hub)
        }
        _ => {
            let (status, files) = local(alloc, job, files, out, err);
            (status, files, hub)
        }
    }
}

/// Does what the words ask for.
fn answer_words<F: Files, H: Hub, O: Sink, E: Sink>(
    alloc: Global,
    words: &Names,
    files: F,
    hub: H,
    out: &mut O,
    err: &mut E,
) -> (u8, F, H)
    ensures gives { GivesAny H.may F.contents F.faults (Rose (F.absences files) (F.absences result.1)) (Rose (F.faults files) (F.faults result.1)) (F.refused result.1) (meaning words.now)
        hub result.2 files result.1 result.0 (O.wrote out.old) (O.wrote out.new) (E.wrote err.old) (E.wrote err.new)
        (O.faults out.old) (O.faults out.new) (E.faults err.old) (E.faults err.new) }

    ensures statuses { IsStatus result.0 }
    ensures named { ReadsRecording (meaning words.now) → result.0 ≡ 3 → F.faults files < 2 ^ 64 - 1 → NamesUnread (F.refused result.1) (E.wrote err.old) (E.wrote err.new) }
    ensures no_read_fault { LooksOnce (meaning words.now) → result.0 ≢ 3 → result.0 ≢ 4 → F.faults files < 2 ^ 64 - 1 → F.faults result.1 ≡ F.faults files }
    ensures hub_fault { result.0 ≡ 6 → Rose (H.faults hub) (H.faults result.2) }
    ensures no_hub_fault { result.0 ≢ 6 → result.0 ≢ 4 → H.faults result.2 ≡ H.faults hub }
    ensures hub { IsLocal (meaning words.now) → result.2 ≡ hub }
    ensures contents { LooksOnce (meaning words.now) → F.contents result.1 ≡ F.contents files }
    ensures hub_faults { H.faults hub ≤ H.faults result.2 }
    ensures faults { F.faults files ≤ F.faults result.1 }
    ensures absences { F.absences files ≤ F.absences result.1 }
    ensures out_faults { O.faults out.old ≤ O.faults out.new }
    ensures err_faults { E.faults err.old ≤ E.faults err.new }
{
    words_ask_for_what_is_written();
    match read_words(alloc, words) {
        Ok(Some(job)) => do_any(alloc, &job, files, hub, out, err),
        Ok(None) => (deliver_usage(err).number(), files, hub),
        Err(_) => (deliver_out_of_memory(err).number(), files, hub),
    }
}

/// Does what the words ask for, and gives the exit status, the files and the hub back.
///
/// `check FILE..` writes on `out` one line of JSON for each configuration file, in order; the first
/// that gives no configuration ends the run. `plan CONFIG DP` writes on `out` the batch that opens the
/// datapath DP of the configuration file CONFIG: OpenFlow 1.3 messages, big-endian. `replay CONFIG RECORDING`
/// runs the controller of CONFIG on what the recording tells, writes on `out` a record for each message that
/// it says and each connection that it closes, and on `err` its lines. `serve CONFIG --events N --reload-ms M
/// --listen A:P` runs the controller of CONFIG on the hub, for at most N happenings, looks every M milliseconds at
/// CONFIG and what it includes, and writes the controller's lines on `err`. `gauge GAUGE_CONFIG RECORDING` runs the Gauge
/// of GAUGE_CONFIG on what the recording tells, and writes on `out` the lines of what switches told; `gauge-serve
/// GAUGE_CONFIG --events N --listen A:P` runs it on the hub, for at most N happenings. `bench N` runs a controller on a
/// story in which N hosts come, and writes on `out` a line of what it says of it: how many hosts it knows, the batches
/// and commands that they led to, and the sum of all bytes that were said. `trace CONFIG RECORDING DP PORT FRAME` runs
/// the controller of CONFIG on what the recording tells, drops what it says, and writes on `out` what the datapath DP then
/// sends of a frame that comes in by PORT; `walk` with the same words where that arrives, over the links of the stack.
/// `bgp CONFIG ROUTER RECORDING` runs the speaker for the BGP peer of the router ROUTER of CONFIG on what the recording
/// tells, and writes on `out` a record for each message that it says, each NOTIFICATION that ends a connection, and each
/// text of the configuration with the peer's routes; `bgp-serve CONFIG ROUTER --events N --listen A:P` runs it on the
/// hub, for at most N happenings.
/// Any other words have no meaning. A refusal is one line on `err`. Statuses: 0 done, so of `serve`, `gauge-serve` and
/// `bgp-serve` where the hub said so; 1 the words have no meaning; 2 a configuration was read and is refused, or DP
/// isn't one of its datapaths, or PORT none of DP's interfaces, or ROUTER has no peer, or the document is too long for
/// its routes; 3 a file isn't there, or a read failed, of these three before the hub was asked; 4 a write failed; 5 a
/// record of the recording is refused; 6 the hub failed; 7 N turns were taken, for `replay`, `gauge`, `trace`, `walk`
/// and `bgp` 2^64 - 1; 8 out of memory; 9 a datapath doesn't run, or a barrier is outstanding for it: DP, or for
/// `walk` one that links join to it.
pub fn faucet<F: Files, H: Hub, O: Sink, E: Sink>(
    alloc: Global,
    words: &Names,
    files: F,
    hub: H,
    out: &mut O,
    err: &mut E,
) -> (u8, F, H)
    // One reply was given: the answer to the words, for what the files gave, of which it says where they tell it,
    // where a read failed, and where memory ran out. A failed write leaves a front of it, and nothing else is written.
    // Of `serve`, `gauge-serve` and `bgp-serve` it says what happened at the hub and what that was told, of `serve` also which texts
    // the looks at the file had.
    ensures gives { GivesAny H.may F.contents F.faults (Rose (F.absences files) (F.absences result.1)) (Rose (F.faults files) (F.faults result.1)) (F.refused result.1) (meaning words.now)
        hub result.2 files result.1 result.0 (O.wrote out.old) (O.wrote out.new) (E.wrote err.old) (E.wrote err.new)
        (O.faults out.old) (O.faults out.new) (E.faults err.old) (E.faults err.new) }

    // Where the files are told, the status is that of the answer, so 2 where a configuration was read and refused,
    // or hasn't the datapath, 5 where a record is refused, 7 only where 2^64 - 1 turns were taken; but for a failed
    // write, want of memory and a failed read. Where the hub is asked it is then 0, 6 or 7.
    ensures told { (held : Contents) → F.contents files ≡ Some held
        → StatusFor result.0 (IsStatusOf (meaning words.now) (held 0)) (Rose (F.faults files) (F.faults result.1)) }

    // Status 1 only where the words have no meaning.
    ensures usage { result.0 ≡ 1 → meaning words.now ≡ None }
    ensures no_meaning { meaning words.now ≡ None → (result.0 ≡ 1) ⊎ ((result.0 ≡ 4) ⊎ (result.0 ≡ 8)) }

    // Status 3 only where a file isn't there, or a read failed. That file is named: of a job with a recording the one that was refused
    // last, be it the recording or one of the configuration's. The hub wasn't asked for a turn then, nor at 2. But for a look
    // of `serve` no read that failed is passed over: it ends the run with this status, or with 4 where the line that says so
    // couldn't be written.
    ensures unread { result.0 ≡ 3 → Rose (F.absences files) (F.absences result.1) ⊎ Rose (F.faults files) (F.faults result.1) }
    ensures named { ReadsRecording (meaning words.now) → result.0 ≡ 3 → F.faults files < 2 ^ 64 - 1 → NamesUnread (F.refused result.1) (E.wrote err.old) (E.wrote err.new) }
    ensures unasked { (result.0 ≡ 2) ⊎ (result.0 ≡ 3) → result.2 ≡ hub }
    ensures no_read_fault { LooksOnce (meaning words.now) → result.0 ≢ 3 → result.0 ≢ 4 → F.faults files < 2 ^ 64 - 1 → F.faults result.1 ≡ F.faults files }

    // Status 4 only where a write failed, and no other where one did.
    ensures write_fault { result.0 ≡ 4 → Rose (O.faults out.old) (O.faults out.new) ⊎ Rose (E.faults err.old) (E.faults err.new) }
    ensures no_write_fault { result.0 ≢ 4 → (O.faults out.new ≡ O.faults out.old) × (E.faults err.new ≡ E.faults err.old) }
    ensures statuses { IsStatus result.0 }

    // Status 6 only where the hub failed, and no other where it did, but for 4.
    ensures hub_fault { result.0 ≡ 6 → Rose (H.faults hub) (H.faults result.2) }
    ensures no_hub_fault { result.0 ≢ 6 → result.0 ≢ 4 → H.faults result.2 ≡ H.faults hub }

    // `check`: at status 0 each file is accepted, and their lines stand on `out` in order.
    ensures checked { (names : List (List ℕ)) (held : Contents) → meaning words.now ≡ Some (Check names) → F.contents files ≡ Some held
        → result.0 ≡ 0 → AreAccepted names (held 0) (O.wrote out.old) (O.wrote out.new) }

    // `plan`, the headline: at status 0 what stands on `out` opens the datapath. Whatever a switch held that
    // keeps the barrier rule, behind the last barrier it holds exactly the cold start of the configuration,
    // and these tables send every packet exactly as the configuration describes.
    ensures opened { (config dp : List ℕ) (held : Contents) → meaning words.now ≡ Some (Plan config dp) → F.contents files ≡ Some held
        → result.0 ≡ 0 → IsOpened config dp (held 0) (O.wrote out.old) (O.wrote out.new) }

    // `replay`, the headline: at status 0 the recording was taken in whole, and what stands on `out` and `err` is
    // exactly what the controller says of its story; and all that is right, of each front of that story. At status
    // 5 the same of the records before the refused one.
    ensures replayed { (config recording : List ℕ) (held : Contents) → meaning words.now ≡ Some (Replay config recording) → F.contents files ≡ Some held
        → result.0 ≡ 0 → IsReplayed config recording None (held 0) (O.wrote out.old) (O.wrote out.new) (E.wrote err.old) (E.wrote err.new) }
    ensures refused_record { (config recording : List ℕ) (held : Contents) → meaning words.now ≡ Some (Replay config recording) → F.contents files ≡ Some held
        → result.0 ≡ 5 → (refused : RecordRefused) × IsReplayed config recording (Some refused) (held 0) (O.wrote out.old) (O.wrote out.new) (E.wrote err.old) (E.wrote err.new) }

    // `serve`, the headline: where the hub said that it is done (0), where it failed (6) and where N turns were taken, each
    // of which gave a happening (7), between the first N happenings of the hub's story with the reloads of the looks, where it
    // tells it, and what the hub was told, all is right.
    ensures served { (config : List ℕ) (events reload_ms : ℕ) (listen : Listen) (held : Contents) (end : Drove) → meaning words.now ≡ Some (Serve config events reload_ms listen)
        → F.contents files ≡ Some held → IsItsEnd end → result.0 ≡ number_of_status (status_served end)
        → IsServed H.may F.contents F.faults config (held 0) reload_ms events end hub result.2 files result.1 (O.wrote out.old) (O.wrote out.new) (E.wrote err.old) (E.wrote err.new) }

    // It comes to such an end, but for want of memory: where the configuration is accepted and no count of faults rose, the status
    // is 0, so that the hub said that it is done within N turns, else 7, or 8.
    ensures completes { (config : List ℕ) (events reload_ms : ℕ) (listen : Listen) (held : Contents) (conf : Configuration) → meaning words.now ≡ Some (Serve config events reload_ms listen)
        → F.contents files ≡ Some held → loaded (held 0) config ≡ Ok conf
        → (Rose (F.faults files) (F.faults result.1) → ⊥) → (Rose (H.faults hub) (H.faults result.2) → ⊥)
        → (Rose (O.faults out.old) (O.faults out.new) → ⊥) → (Rose (E.faults err.old) (E.faults err.new) → ⊥)
        → (result.0 ≡ 0) ⊎ ((result.0 ≡ 7) ⊎ (result.0 ≡ 8)) }

    // `gauge`: at status 0 the recording was taken in whole, and what stands on `out` and `err` is exactly what Gauge gives
    // of its story. At status 5 the same of the records before the refused one.
    ensures watched { (config recording : List ℕ) (held : Contents) → meaning words.now ≡ Some (Gauge config recording) → F.contents files ≡ Some held
        → result.0 ≡ 0 → IsWatched config recording None (held 0) (O.wrote out.old) (O.wrote out.new) (E.wrote err.old) (E.wrote err.new) }
    ensures watched_to { (config recording : List ℕ) (held : Contents) → meaning words.now ≡ Some (Gauge config recording) → F.contents files ≡ Some held
        → result.0 ≡ 5 → (refused : RecordRefused) × IsWatched config recording (Some refused) (held 0) (O.wrote out.old) (O.wrote out.new) (E.wrote err.old) (E.wrote err.new) }

    // `gauge-serve`: where the hub said that it is done (0), where it failed (6) and where N turns were taken, each of which gave a
    // happening (7), the hub was told what Gauge says of these, and what stands on `out` and `err` is exactly what it gives of them.
    ensures hub_watched { (config : List ℕ) (events : ℕ) (listen : Listen) (held : Contents) (end : Drove) → meaning words.now ≡ Some (GaugeServe config events listen)
        → F.contents files ≡ Some held → IsItsEnd end → result.0 ≡ number_of_status (status_served end)
        → IsHubWatched H.may config (held 0) events end hub result.2 (O.wrote out.old) (O.wrote out.new) (E.wrote err.old) (E.wrote err.new) }
    ensures gauge_completes { (config : List ℕ) (events : ℕ) (listen : Listen) (held : Contents) (conf : GaugeConf) → meaning words.now ≡ Some (GaugeServe config events listen)
        → F.contents files ≡ Some held → gauge_of (held 0) config ≡ Ok conf
        → (Rose (F.faults files) (F.faults result.1) → ⊥) → (Rose (H.faults hub) (H.faults result.2) → ⊥)
        → (Rose (O.faults out.old) (O.faults out.new) → ⊥) → (Rose (E.faults err.old) (E.faults err.new) → ⊥)
        → (result.0 ≡ 0) ⊎ ((result.0 ≡ 7) ⊎ (result.0 ≡ 8)) }

    // `bgp`: at status 0 the recording was taken in whole, and what stands on `out` and `err` is exactly what the speaker for the
    // router's peer gives of its story, with each text of the configuration with the peer's routes, which is accepted. At status 5
    // the same of the records before the refused one.
    ensures spoken { (config router recording : List ℕ) (held : Contents) → meaning words.now ≡ Some (Bgp config router recording) → F.contents files ≡ Some held
        → result.0 ≡ 0 → IsSpoken config router recording None (held 0) (O.wrote out.old) (O.wrote out.new) (E.wrote err.old) (E.wrote err.new) }
    ensures spoken_to { (config router recording : List ℕ) (held : Contents) → meaning words.now ≡ Some (Bgp config router recording) → F.contents files ≡ Some held
        → result.0 ≡ 5 → (refused : RecordRefused) × IsSpoken config router recording (Some refused) (held 0) (O.wrote out.old) (O.wrote out.new) (E.wrote err.old) (E.wrote err.new) }

    // `bgp-serve`: where the hub said that it is done (0), where it failed (6) and where N turns were taken, each of which gave a
    // happening (7), the hub was told what the speaker says and closes of these, and what stands on `out` and `err` is exactly what
    // it gives of them, of which each text is accepted.
    ensures hub_spoken { (config router : List ℕ) (events : ℕ) (listen : Listen) (held : Contents) (end : Drove) → meaning words.now ≡ Some (BgpServe config router events listen)
        → F.contents files ≡ Some held → IsItsEnd end → result.0 ≡ number_of_status (status_served end)
        → IsHubSpoken H.may config router (held 0) events end hub result.2 (O.wrote out.old) (O.wrote out.new) (E.wrote err.old) (E.wrote err.new) }
    ensures bgp_completes { (config router : List ℕ) (events : ℕ) (listen : Listen) (held : Contents) (peer : LoadedPeer) → meaning words.now ≡ Some (BgpServe config router events listen)
        → F.contents files ≡ Some held → loaded_peer (held 0) config router ≡ Ok (Ok peer)
        → (Rose (F.faults files) (F.faults result.1) → ⊥) → (Rose (H.faults hub) (H.faults result.2) → ⊥)
        → (Rose (O.faults out.old) (O.faults out.new) → ⊥) → (Rose (E.faults err.old) (E.faults err.new) → ⊥)
        → (result.0 ≡ 0) ⊎ ((result.0 ≡ 7) ⊎ (result.0 ≡ 8)) }

    // `bench`: at status 0 what stands on `out` is the line of what is measured of its story, and all that is right, of each front of
    // that story.
    ensures measured { (hosts : ℕ) → meaning words.now ≡ Some (Bench hosts) → result.0 ≡ 0 → IsMeasured hosts (O.wrote out.old) (O.wrote out.new) }

    // `trace` and `walk`: at status 0 the recording was taken in whole, and what stands on `out` are the lines of what the datapath
    // sends of the frame, by what was sent to its switch, or of where it arrives, by the cold starts of what is then known: exactly
    // where the datapath runs and no barrier is outstanding for it, and for `walk` the same of each that links join to it. Status 9
    // says that one isn't so, and which; status 5 that a record is refused. All that the controller says is right.
    ensures followed { (how : How) (traced : Traced) (held : Contents) → meaning words.now ≡ Some (job_for how traced) → F.contents files ≡ Some held
        → result.0 ≡ 0 → (lines : List ℕ) × IsFollowed how traced (held 0) (shown.Lines lines) (O.wrote out.old) (O.wrote out.new) (E.wrote err.old) (E.wrote err.new) }
    ensures not_ready { (how : How) (traced : Traced) (held : Contents) → meaning words.now ≡ Some (job_for how traced) → F.contents files ≡ Some held
        → result.0 ≡ 9 → (name : List ℕ) × IsFollowed how traced (held 0) (shown.NotReady name) (O.wrote out.old) (O.wrote out.new) (E.wrote err.old) (E.wrote err.new) }
    ensures cut_short { (how : How) (traced : Traced) (held : Contents) → meaning words.now ≡ Some (job_for how traced) → F.contents files ≡ Some held
        → result.0 ≡ 5 → (refused : RecordRefused) × IsCutShort traced refused (held 0) (O.wrote out.old) (O.wrote out.new) (E.wrote err.old) (E.wrote err.new) }

    // Files and hub are handed back; but for `serve`, the files hold what they held, and but for `serve`, `gauge-serve` and
    // `bgp-serve`, nothing was said to the hub.
    ensures contents { LooksOnce (meaning words.now) → F.contents result.1 ≡ F.contents files }
    ensures faults { F.faults files ≤ F.faults result.1 }
    ensures absences { F.absences files ≤ F.absences result.1 }
    ensures hub { IsLocal (meaning words.now) → result.2 ≡ hub }
    ensures hub_faults { H.faults hub ≤ H.faults result.2 }
    ensures out_faults { O.faults out.old ≤ O.faults out.new }
    ensures err_faults { E.faults err.old ≤ E.faults err.new }
{
    a_loaded_configuration_is_valid();
    an_opening_batch_opens_the_datapath();
    whatever_happens_is_right();
    what_is_printed_are_the_lines();
    a_text_is_new();
    the_configuration_is_valid();
    answer_words(alloc, words, files, hub, out, err)
}

/// Says on `err` that memory ran out, where that came before the words could be read, and gives the exit
/// status: 8, or 4 where the write failed.
pub fn refuse_for_memory<E: Sink>(err: &mut E) -> u8
    ensures wrote { result ≡ 8 → E.wrote err.new ≡ appended (E.wrote err.old) out_of_memory.err }
    ensures no_write_fault { result ≡ 8 → E.faults err.new ≡ E.faults err.old }
    ensures front { result ≢ 8 → AppendsFront (E.wrote err.old) (E.wrote err.new) out_of_memory.err }
    ensures write_fault { result ≢ 8 → (result ≡ 4) × Rose (E.faults err.old) (E.faults err.new) }
{
    deliver_out_of_memory(err).number()
}
