ghost use Rattle.std.specs.Prelude.{◌≡◌, map, IfOk};
ghost use Rattle.command_line.specs.Recorded.{recorded_options, are_recorded_options, recorded_serve, recorded_meaning};

use crate::meaning::{is_listed, one_word, serve_options};
use crate::parts::{CommandOption, Parts, part_words};
use crate::values::{Listen, value_of};
use net_base::{Names, NoMemory, Text};
use std::alloc::Global;

/// What `faucet_recorded` is asked to do: what `serve` does, and to write a recording of it to a file.
#[derive(Debug, Drop)]
pub struct RecordedServe {
    pub config: Text,
    pub events: u64,
    pub reload_ms: u64,
    pub listen: Listen,
    pub record_file: Text,
}

fn recorded_options() -> &'static [&'static str]
    ensures { map (λ name. name.now) result.now ≡ recorded_options }
{
    &["record", "events", "reload-ms", "listen"]
}

fn are_recorded_options(options: &[CommandOption]) -> bool
    ensures { result ≡ are_recorded_options options.now }
{
    let names = recorded_options();
    options
        .iter()
        .all(|option| is_listed(option.name.as_str(), names))
}

fn recorded_serve(alloc: Global, parts: &Parts) -> Result<Option<RecordedServe>, NoMemory>
    ensures { IfOk result (λ job. job ≡ recorded_serve parts.now) }
{
    let Some(config) = one_word(alloc, parts.plain.as_slice())? else {
        return Ok(None);
    };
    let Some(options) = serve_options(parts.options.as_slice()) else {
        return Ok(None);
    };
    let Some(file) = value_of(parts.options.as_slice(), "record") else {
        return Ok(None);
    };
    Ok(Some(RecordedServe {
        config,
        events: options.events,
        reload_ms: options.reload_ms,
        listen: options.listen,
        record_file: Text::from_str(alloc, file)?,
    }))
}

/// Reads the words of `faucet_recorded`: those of `serve` behind its name, and `--record FILE`. `None` exactly
/// where they have no meaning: they have no parts; an option is none of these, lacks though it is needed, or has
/// a value out of its range; or there isn't just one plain word.
#[tactic(auto, unfolding(crate::specs::Recorded::recorded_meaning))]
pub fn read_recorded_words(alloc: Global, words: &Names) -> Result<Option<RecordedServe>, NoMemory>
    ensures { IfOk result (λ job. job ≡ recorded_meaning words.now) }
{
    let Some(parts) = part_words(alloc, words.as_slice())? else {
        return Ok(None);
    };
    if !are_recorded_options(parts.options.as_slice()) {
        return Ok(None);
    }
    recorded_serve(alloc, &parts)
}
