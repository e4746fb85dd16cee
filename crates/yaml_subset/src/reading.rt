//! A whole text, read line by line.

ghost use Rattle.std.specs.Prelude.{◌≡◌, ◌==◌, ◌+◌, ◌<◌, ◌≤◌, ◌^◌, map, length, IfOk, count_by};
ghost use Rattle.std.specs.Str.Lines.{lines};
ghost use Rattle.yaml_subset.specs.Reading.{fault_at, at_line, lines_from, line_not_utf8, read_of, GivesTree};
ghost use Rattle.yaml_subset.specs.Reading.{FailsText};
ghost use Rattle.yaml_subset.specs.Grammar.{GivesByGrammar};
ghost use Rattle.yaml_subset.specs.TextFault.{TellsFault};
ghost use Rattle.yaml_subset.specs.declared.fault.YamlCause.TheVariants.{NotUtf8, TooLong};
ghost use Rattle.yaml_subset.specs.declared.fault.YamlRefused.TheVariants.{Memory};
ghost use Rattle.yaml_subset.specs.declared.blocks.State.TheVariants.{Start};

use crate::blocks::State;
use crate::fault::{LineRefused, YamlCause, YamlFault, YamlRefused};
use crate::lines::{finish, step};
use net_base::NoMemory;
use std::alloc::{AllocError, Global};
use yaml_tree::Tree;

/// The most bytes that a text may have.
const MOST_BYTES: usize = 1_048_576;

impl From<AllocError> for YamlRefused {
    ghost from_gives = { λ _ e. e ≡ Memory };

    fn from(_e: AllocError) -> YamlRefused {
        YamlRefused::Memory
    }
}

/// The lines of a text, without their ends.
fn split_lines<'a>(alloc: Global, text: &'a str) -> Result<Vec<&'a str>, NoMemory>
    ensures { IfOk result (λ v. map (λ x. x.now) v.items ≡ lines text.now) }
{
    text.lines().collect(alloc)
}

/// How many line feeds the bytes have.
fn line_feeds(bytes: &[u8]) -> usize
    ensures value { result ≡ count_by (λ b. b == 10) bytes.now }
    ensures within { result ≤ length bytes.now }
{
    bytes.iter().filter(|byte| **byte == b'\n').count()
}

/// The lines of a text, one after the other.
#[tactic(auto, unfolding(crate::specs::Reading::lines_from))]
fn read_lines(alloc: Global, lines: &[&str]) -> Result<Tree, YamlRefused>
    requires { length lines.now < 2 ^ 32 }
    ensures { GivesTree result (lines_from 0 Start (map (λ x. x.now) lines.now)) }
{
    let mut state = State::Start;
    let mut line = 0u32;
    let mut rest = lines;
    while let [text, tail @ ..] = rest {
        line += 1;
        state = match step(alloc, state, text.as_bytes()) {
            Ok(next) => next,
            Err(LineRefused::Memory) => return Err(YamlRefused::Memory),
            Err(LineRefused::Cause(cause)) => {
                return Err(YamlRefused::At(YamlFault { line, cause }));
            }
        };
        rest = tail;
    }
    Ok(finish(alloc, state)?)
}

/// A text that is UTF-8 and not too long.
#[tactic(auto, using(crate::proofs::LineLaws::lines_at_most))]
fn read_text(alloc: Global, text: &str) -> Result<Tree, YamlRefused>
    requires { length text.now ≤ 1048576 }
    ensures { GivesTree result (lines_from 0 Start (lines text.now)) }
{
    let lines = split_lines(alloc, text)?;
    read_lines(alloc, lines.as_slice())
}

/// The fault of a text that is too long.
fn too_long() -> YamlFault
    ensures { result ≡ fault_at 0 TooLong }
{
    YamlFault {
        line: 0,
        cause: YamlCause::TooLong,
    }
}

/// The fault of a text of which only this front is UTF-8.
fn not_utf8(front: &[u8]) -> YamlFault
    requires { length front.now ≤ 1048576 }
    ensures { result ≡ fault_at (count_by (λ b. b == 10) front.now + 1) NotUtf8 }
{
    YamlFault {
        line: line_feeds(front) as u32 + 1,
        cause: YamlCause::NotUtf8,
    }
}

/// A text's tree or its first fault.
#[tactic(auto, using(crate::proofs::Text::valid_lens), unfolding(crate::specs::Reading::read_of))]
fn read_bytes(alloc: Global, text: &[u8]) -> Result<Tree, YamlRefused>
    ensures { GivesTree result (read_of text.now) }
{
    if text.len() > MOST_BYTES {
        return Err(YamlRefused::At(too_long()));
    }
    match std::str::from_utf8(text) {
        Ok(text) => read_text(alloc, text),
        Err(e) => {
            let (front, _) = text.split_at(e.valid_up_to());
            Err(YamlRefused::At(not_utf8(front)))
        }
    }
}

/// Reads the tree of a text. A refusal is the text's first fault: `TooLong` at line 0 for a text of
/// over 1,048,576 bytes, else `NotUtf8` at the line in which the bytes stop being UTF-8, else the cause
/// at the leftmost column of the first line at which no accepted text goes on so. A key or number that is
/// left out, or stands twice, has its column at its first character, a bracket or quote that isn't closed
/// at the line's end; any other cause at the first character that doesn't fit.
#[tactic(auto, using(crate::proofs::GrammarLaws::by_grammar, crate::proofs::TextFaults::tells_fault))]
pub fn read_yaml(alloc: Global, text: &[u8]) -> Result<Tree, YamlRefused>
    ensures grammar { GivesByGrammar result text.now }
    ensures first { TellsFault result text.now }
{
    read_bytes(alloc, text)
}
