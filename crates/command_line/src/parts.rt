ghost use Rattle.std.specs.Prelude.{◌≡◌, ◌≤◌, ◌∷◌, ◌++◌, [], length, map, Option, Some, IfOk, IfSome, OnOk};
ghost use Rattle.command_line.specs.Parts.{is_plain, behind_dash, option_in, is_named, have_distinct_names, parts_of};
ghost use Rattle.command_line.specs.Parting.{Lends, LendsOption, Leaves};

use net_base::{Items, Names, NoMemory, Text, TryCopy};
use std::alloc::Global;

/// An option of a command line, `--name value` or `--name=value`.
#[derive(Debug, Drop)]
pub struct CommandOption {
    pub name: Text,
    pub value: Text,
}

/// The options of a command line, in order.
pub type CommandOptions = Items<CommandOption>;

/// The words behind a command: plain words and options, each in order.
#[derive(Debug, Drop)]
pub struct Parts {
    pub plain: Names,
    pub options: CommandOptions,
}

/// Whether a word isn't empty and doesn't begin with a dash.
fn is_plain(word: &str) -> bool
    ensures { result ≡ is_plain word.now }
{
    match word.as_bytes() {
        [] => false,
        [first, ..] => *first != b'-',
    }
}

/// What stands behind a dash at the front.
fn behind_dash(text: &str) -> Option<&str>
    ensures { Lends result (behind_dash text.now) }
{
    text.strip_prefix('-')
}

/// The name of an option, and its value where the same word has it.
fn option_in(word: &str) -> Option<(&str, Option<&str>)>
    ensures { LendsOption result (option_in word.now) }
{
    let text = behind_dash(behind_dash(word)?)?;
    match text.split_once('=') {
        Some(("", _)) => None,
        Some((name, value)) => Some((name, Some(value))),
        None if text.is_empty() => None,
        None => Some((text, None)),
    }
}

fn push_option(
    alloc: Global,
    options: &mut CommandOptions,
    name: &str,
    value: &str,
) -> Result<(), NoMemory>
    ensures { OnOk result (options.new ≡ options.old ++ record { name = name.now; value = value.now } ∷ []) }
{
    let name = Text::from_str(alloc, name)?;
    let value = Text::from_str(alloc, value)?;
    options.push(CommandOption { name, value })
}

/// Adds what begins with the first of several words, and gives the words behind it. `None` where it is
/// neither a plain word nor an option with its value.
fn push_first<'a>(
    alloc: Global,
    parts: &mut Parts,
    first: &Text,
    behind: &'a [Text],
) -> Result<Option<&'a [Text]>, NoMemory>
    ensures goes_on { IfOk result (λ left. Leaves parts.old (first.now ∷ behind.now) left parts.new) }
    ensures fewer { IfOk result (λ left. IfSome left (λ words. length words.now ≤ length behind.now)) }
{
    if is_plain(first.as_str()) {
        parts.plain.push(first.copy(alloc)?)?;
        return Ok(Some(behind));
    }
    let Some((name, value)) = option_in(first.as_str()) else {
        return Ok(None);
    };
    if let Some(value) = value {
        push_option(alloc, &mut parts.options, name, value)?;
        return Ok(Some(behind));
    }
    let [value, words @ ..] = behind else {
        return Ok(None);
    };
    push_option(alloc, &mut parts.options, name, value.as_str())?;
    Ok(Some(words))
}

fn is_named(name: &str, options: &[CommandOption]) -> bool
    ensures { result ≡ is_named name.now options.now }
{
    options.iter().any(|option| option.name.as_str() == name)
}

fn have_distinct_names(options: &[CommandOption]) -> bool
    ensures { result ≡ have_distinct_names options.now }
{
    let mut left = options;
    while let [first, others @ ..] = left {
        if is_named(first.name.as_str(), others) {
            return false;
        }
        left = others;
    }
    true
}

/// Parts the words behind a command. `None` exactly where a word is empty or begins with a dash and is
/// no option with its value, or a name stands twice.
#[tactic(auto, unfolding(crate::specs::Parts::parts_of, crate::specs::Parts::parted))]
pub fn part_words(alloc: Global, words: &[Text]) -> Result<Option<Parts>, NoMemory>
    ensures { IfOk result (λ parts. parts ≡ parts_of words.now) }
{
    let mut parts = Parts {
        plain: Names::new(alloc),
        options: CommandOptions::new(alloc),
    };
    let mut left = words;
    while let [first, behind @ ..] = left {
        let Some(words) = push_first(alloc, &mut parts, first, behind)? else {
            return Ok(None);
        };
        left = words;
    }
    if have_distinct_names(parts.options.as_slice()) {
        Ok(Some(parts))
    } else {
        Ok(None)
    }
}
