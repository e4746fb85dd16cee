ghost use Rattle.std.specs.Prelude.{◌≡◌, List, ℕ, map, IfOk};
ghost use Rattle.std.specs.List.{list_any};
ghost use Rattle.std.specs.Str.{bytes_eq};
ghost use Rattle.command_line.specs.Meaning.{command_of, options_of, are_taken, one_of, two_of, three_of, events_of, listen_or, serve_options, bench_of, sent_by, sent_on, job_of, meaning};
ghost use Rattle.command_line.specs.Values.{number_in};

use crate::frames::frame_of;
use crate::parts::{CommandOption, Parts, part_words};
use crate::values::{Listen, listen_of, number_in, value_of, value_or};
use net_base::{Bytes, Names, NoMemory, PortNo, Text, TryCopy};
use std::alloc::Global;

#[derive(Clone, Copy)]
enum Command {
    Check,
    Plan,
    Replay,
    Serve,
    Gauge,
    GaugeServe,
    Bench,
    Trace,
    Walk,
    Bgp,
    BgpServe,
}

/// What the program is asked to do.
#[derive(Debug, Drop)]
pub enum Job {
    /// To check these configuration files, in order.
    Check(Names),
    /// To write the opening batch of a datapath, by a configuration file.
    Plan {
        config: Text,
        dp: Text,
    },
    /// To run the controller of a configuration file on a recording.
    Replay {
        config: Text,
        recording: Text,
    },
    /// To run the controller of a configuration file on the switches that connect, for at most so many
    /// events, and to look at the file every so many milliseconds.
    Serve {
        config: Text,
        events: u64,
        reload_ms: u64,
        listen: Listen,
    },
    /// To run Gauge, by its configuration file, on a recording.
    Gauge {
        config: Text,
        recording: Text,
    },
    /// To run Gauge, by its configuration file, on the switches that connect, for at most so many events.
    GaugeServe {
        config: Text,
        events: u64,
        listen: Listen,
    },
    /// To run a controller on a story in which so many hosts come, and to measure what it says.
    Bench(u32),
    /// To run the controller of a configuration file on a recording, and to show what a datapath then sends of a
    /// frame that comes in by a port.
    Trace {
        config: Text,
        recording: Text,
        dp: Text,
        port: PortNo,
        frame: Bytes,
    },
    /// The same, and to show where the frame arrives, over the links of the stack.
    Walk {
        config: Text,
        recording: Text,
        dp: Text,
        port: PortNo,
        frame: Bytes,
    },
    /// To run the speaker for the BGP peer of a router, by a configuration file, on a recording.
    Bgp {
        config: Text,
        router: Text,
        recording: Text,
    },
    /// To run the speaker for the BGP peer of a router, by a configuration file, on the connections that come, for at
    /// most so many events.
    BgpServe {
        config: Text,
        router: Text,
        events: u64,
        listen: Listen,
    },
}

/// The options of `serve`.
#[derive(Clone, Copy, Debug)]
pub(crate) struct ServeOptions {
    pub(crate) events: u64,
    pub(crate) reload_ms: u64,
    pub(crate) listen: Listen,
}

/// The words of `trace` and `walk`.
#[derive(Debug, Drop)]
struct SentOn {
    config: Text,
    recording: Text,
    dp: Text,
    port: PortNo,
    frame: Bytes,
}

fn command_of(word: &str) -> Option<Command>
    ensures { result ≡ command_of word.now }
{
    if word == "check" {
        Some(Command::Check)
    } else if word == "plan" {
        Some(Command::Plan)
    } else if word == "replay" {
        Some(Command::Replay)
    } else if word == "serve" {
        Some(Command::Serve)
    } else if word == "gauge" {
        Some(Command::Gauge)
    } else if word == "gauge-serve" {
        Some(Command::GaugeServe)
    } else if word == "bench" {
        Some(Command::Bench)
    } else if word == "trace" {
        Some(Command::Trace)
    } else if word == "walk" {
        Some(Command::Walk)
    } else if word == "bgp" {
        Some(Command::Bgp)
    } else if word == "bgp-serve" {
        Some(Command::BgpServe)
    } else {
        None
    }
}

/// The options that a command takes.
fn options_of(command: Command) -> &'static [&'static str]
    ensures { map (λ name. name.now) result.now ≡ options_of command }
{
    match command {
        Command::Check
        | Command::Plan
        | Command::Replay
        | Command::Gauge
        | Command::Bench
        | Command::Trace
        | Command::Walk
        | Command::Bgp => &[],
        Command::Serve => &["events", "reload-ms", "listen"],
        Command::GaugeServe | Command::BgpServe => &["events", "listen"],
    }
}

pub(crate) fn is_listed(name: &str, names: &[&'static str]) -> bool
    ensures { result ≡ list_any (λ listed. bytes_eq listed name.now) (map (λ listed. listed.now) names.now) }
{
    for listed in names {
        if *listed == name {
            return true;
        }
    }
    false
}

fn are_taken(command: Command, options: &[CommandOption]) -> bool
    ensures { result ≡ are_taken command options.now }
{
    let names = options_of(command);
    options
        .iter()
        .all(|option| is_listed(option.name.as_str(), names))
}

/// One plain word; `None` where there are none or more.
pub(crate) fn one_word(alloc: Global, plain: &[Text]) -> Result<Option<Text>, NoMemory>
    ensures { IfOk result (λ one. one ≡ one_of plain.now) }
{
    match plain {
        [only] => Ok(Some(only.copy(alloc)?)),
        _ => Ok(None),
    }
}

/// Two plain words; `None` where there are fewer or more.
fn two_words(alloc: Global, plain: &[Text]) -> Result<Option<(Text, Text)>, NoMemory>
    ensures { IfOk result (λ two. two ≡ two_of plain.now) }
{
    match plain {
        [first, second] => Ok(Some((first.copy(alloc)?, second.copy(alloc)?))),
        _ => Ok(None),
    }
}

/// Three plain words; `None` where there are fewer or more.
fn three_words(alloc: Global, plain: &[Text]) -> Result<Option<(Text, Text, Text)>, NoMemory>
    ensures { IfOk result (λ three. three ≡ three_of plain.now) }
{
    match plain {
        [first, second, third] => Ok(Some((
            first.copy(alloc)?,
            second.copy(alloc)?,
            third.copy(alloc)?,
        ))),
        _ => Ok(None),
    }
}

/// How many events are taken at most; `None` where the option isn't there, or isn't in its range.
fn events_of(options: &[CommandOption]) -> Option<u64>
    ensures { result ≡ events_of options.now }
{
    number_in(value_of(options, "events")?, 1, 1_000_000_000)
}

/// Where connections are listened for, or else here; `None` where that is no address with a port.
fn listen_or(options: &[CommandOption], default: &str) -> Option<Listen>
    ensures { result ≡ listen_or default.now options.now }
{
    listen_of(value_or(options, "listen", default))
}

/// What the options of `serve` say, or their defaults; `None` where one has no value in its range, or there is
/// no number of events.
pub(crate) fn serve_options(options: &[CommandOption]) -> Option<ServeOptions>
    ensures { result ≡ serve_options options.now }
{
    let events = events_of(options)?;
    let reload_ms = number_in(value_or(options, "reload-ms", "1000"), 100, 3_600_000)?;
    let listen = listen_or(options, "127.0.0.1:6653")?;
    Some(ServeOptions {
        events,
        reload_ms,
        listen,
    })
}

/// What `serve` asks for.
fn serve_job(alloc: Global, parts: &Parts) -> Result<Option<Job>, NoMemory>
    ensures { IfOk result (λ job. job ≡ job_of Command.Serve parts.now) }
{
    let Some(config) = one_word(alloc, parts.plain.as_slice())? else {
        return Ok(None);
    };
    let Some(options) = serve_options(parts.options.as_slice()) else {
        return Ok(None);
    };
    Ok(Some(Job::Serve {
        config,
        events: options.events,
        reload_ms: options.reload_ms,
        listen: options.listen,
    }))
}

/// What `gauge-serve` asks for.
fn gauge_serve_job(alloc: Global, parts: &Parts) -> Result<Option<Job>, NoMemory>
    ensures { IfOk result (λ job. job ≡ job_of Command.GaugeServe parts.now) }
{
    let Some(config) = one_word(alloc, parts.plain.as_slice())? else {
        return Ok(None);
    };
    let Some(events) = events_of(parts.options.as_slice()) else {
        return Ok(None);
    };
    let Some(listen) = listen_or(parts.options.as_slice(), "127.0.0.1:6654") else {
        return Ok(None);
    };
    Ok(Some(Job::GaugeServe {
        config,
        events,
        listen,
    }))
}

/// What `bench` asks for.
fn bench_job(plain: &[Text]) -> Option<Job>
    ensures { result ≡ bench_of plain.now }
{
    match plain {
        [only] => {
            let hosts = number_in(only.as_str(), 1, 10_000)?;
            Some(Job::Bench(hosts as u32))
        }
        _ => None,
    }
}

fn port_of(text: &str) -> Option<PortNo>
    ensures { result ≡ number_in 1 0xffffff00 text.now }
{
    let number = number_in(text, 1, 0xffff_ff00)?;
    PortNo::new(number as u32)
}

/// What these words of `trace` or `walk` say.
fn sent_by(
    alloc: Global,
    config: &Text,
    recording: &Text,
    dp: &Text,
    port: &Text,
    digits: &Text,
) -> Result<Option<SentOn>, NoMemory>
    ensures { IfOk result (λ sent. sent ≡ sent_by config.now recording.now dp.now port.now digits.now) }
{
    let Some(port) = port_of(port.as_str()) else {
        return Ok(None);
    };
    let Some(frame) = frame_of(alloc, digits.as_str())? else {
        return Ok(None);
    };
    Ok(Some(SentOn {
        config: config.copy(alloc)?,
        recording: recording.copy(alloc)?,
        dp: dp.copy(alloc)?,
        port,
        frame,
    }))
}

/// What the words of `trace` and `walk` say.
fn sent_on(alloc: Global, plain: &[Text]) -> Result<Option<SentOn>, NoMemory>
    ensures { IfOk result (λ sent. sent ≡ sent_on plain.now) }
{
    match plain {
        [config, recording, dp, port, digits] => {
            sent_by(alloc, config, recording, dp, port, digits)
        }
        _ => Ok(None),
    }
}

/// What `trace` asks for.
fn trace_job(sent: SentOn) -> Job
    ensures { result ≡ Job.Trace sent.config sent.recording sent.dp sent.port sent.frame }
{
    Job::Trace {
        config: sent.config,
        recording: sent.recording,
        dp: sent.dp,
        port: sent.port,
        frame: sent.frame,
    }
}

/// What `walk` asks for.
fn walk_job(sent: SentOn) -> Job
    ensures { result ≡ Job.Walk sent.config sent.recording sent.dp sent.port sent.frame }
{
    Job::Walk {
        config: sent.config,
        recording: sent.recording,
        dp: sent.dp,
        port: sent.port,
        frame: sent.frame,
    }
}

/// What `bgp` asks for.
fn bgp_job(alloc: Global, parts: &Parts) -> Result<Option<Job>, NoMemory>
    ensures { IfOk result (λ job. job ≡ job_of Command.Bgp parts.now) }
{
    let Some((config, router, recording)) = three_words(alloc, parts.plain.as_slice())? else {
        return Ok(None);
    };
    Ok(Some(Job::Bgp {
        config,
        router,
        recording,
    }))
}

/// What `bgp-serve` asks for.
fn bgp_serve_job(alloc: Global, parts: &Parts) -> Result<Option<Job>, NoMemory>
    ensures { IfOk result (λ job. job ≡ job_of Command.BgpServe parts.now) }
{
    let Some((config, router)) = two_words(alloc, parts.plain.as_slice())? else {
        return Ok(None);
    };
    let Some(events) = events_of(parts.options.as_slice()) else {
        return Ok(None);
    };
    let Some(listen) = listen_or(parts.options.as_slice(), "127.0.0.1:9179") else {
        return Ok(None);
    };
    Ok(Some(Job::BgpServe {
        config,
        router,
        events,
        listen,
    }))
}

fn job_of(alloc: Global, command: Command, parts: Parts) -> Result<Option<Job>, NoMemory>
    ensures { IfOk result (λ job. job ≡ job_of command parts) }
{
    match command {
        Command::Check if parts.plain.is_empty() => Ok(None),
        Command::Check => Ok(Some(Job::Check(parts.plain))),
        Command::Plan => {
            let Some((config, dp)) = two_words(alloc, parts.plain.as_slice())? else {
                return Ok(None);
            };
            Ok(Some(Job::Plan { config, dp }))
        }
        Command::Replay => {
            let Some((config, recording)) = two_words(alloc, parts.plain.as_slice())? else {
                return Ok(None);
            };
            Ok(Some(Job::Replay { config, recording }))
        }
        Command::Serve => serve_job(alloc, &parts),
        Command::Gauge => {
            let Some((config, recording)) = two_words(alloc, parts.plain.as_slice())? else {
                return Ok(None);
            };
            Ok(Some(Job::Gauge { config, recording }))
        }
        Command::GaugeServe => gauge_serve_job(alloc, &parts),
        Command::Bench => Ok(bench_job(parts.plain.as_slice())),
        Command::Trace => {
            let Some(sent) = sent_on(alloc, parts.plain.as_slice())? else {
                return Ok(None);
            };
            Ok(Some(trace_job(sent)))
        }
        Command::Walk => {
            let Some(sent) = sent_on(alloc, parts.plain.as_slice())? else {
                return Ok(None);
            };
            Ok(Some(walk_job(sent)))
        }
        Command::Bgp => bgp_job(alloc, &parts),
        Command::BgpServe => bgp_serve_job(alloc, &parts),
    }
}

/// Reads the words of a command line. `None` exactly where they have no meaning: there is no word, or the
/// first is no command; the words behind it have no parts; an option is none that the command takes, lacks
/// though the command needs it, or has a value out of its range; or the plain words are too few or too many.
#[tactic(auto, unfolding(crate::specs::Meaning::meaning))]
pub fn read_words(alloc: Global, words: &Names) -> Result<Option<Job>, NoMemory>
    ensures { IfOk result (λ job. job ≡ meaning words.now) }
{
    let [word, behind @ ..] = words.as_slice() else {
        return Ok(None);
    };
    let Some(command) = command_of(word.as_str()) else {
        return Ok(None);
    };
    let Some(parts) = part_words(alloc, behind)? else {
        return Ok(None);
    };
    if !are_taken(command, parts.options.as_slice()) {
        return Ok(None);
    }
    job_of(alloc, command, parts)
}
