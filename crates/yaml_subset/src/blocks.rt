//! Block maps and block lists, line by line.

ghost use Rattle.std.specs.Prelude.{◌≡◌, ◌-◌, ◌==◌, ◌^◌, ◌<◌, ◌+◌, [], length};
ghost use Rattle.yaml_subset.specs.Characters.{marks};
ghost use Rattle.yaml_subset.specs.Blocks.{begins_block, ends_block, closed, settle, close_all, levels_in, line_value, block_value, behind_colon, value_alone, scalar_alone, first_key, key_or_value, behind_dash, content, no_item, next_entry, go_on, in_blocks, is_marker, at_start, is_start, by_state, counted_line, step, finish};
ghost use Rattle.yaml_subset.specs.declared.blocks.Place.TheVariants.{Item};
ghost use Rattle.yaml_subset.specs.Flow.{opens};
ghost use Rattle.yaml_subset.specs.Gives.{Gives};

use crate::characters::{begins, behind_first, is_mark, line_end, next_part};
use crate::entries::Entries;
use crate::fault::{LineRefused, YamlCause, YamlForm};
use crate::flow::{colon_and_tab, flow_value};
use crate::scalars::{Scanned, key_of, scalar_from, scan, value_at};
use crate::stack::{Frame, Open, Stack};
use net_base::{Items, NoMemory};
use std::alloc::Global;
use yaml_tree::Tree;

/// How many lists and maps may be nested.
pub(crate) const LEVELS: usize = 32;

/// Where a value stands: as the whole document, on a line deeper than its key or dash, or behind a dash.
#[derive(Clone, Copy, Debug)]
pub enum Place {
    Document,
    Deeper,
    Item,
}

/// What the lines so far are.
#[derive(Debug, Drop)]
pub enum State {
    /// No line that counts.
    Start,
    /// `---` alone.
    Headed,
    /// A value alone, at this indent.
    Alone(usize, Tree),
    /// Open blocks, and the value of the innermost one's last entry, if it has one yet.
    Blocks(Stack, Option<Tree>),
}

pub(crate) fn levels_in(stack: &Stack) -> usize
    ensures { result ≡ levels_in stack.now }
{
    LEVELS.saturating_sub(stack.len())
}

/// A value, behind which nothing may follow on its line.
fn line_value(value: Tree, after: &[u8]) -> Result<Tree, LineRefused>
    ensures { Gives (λ x. x) result (line_value (value, after.now)) }
{
    line_end(after)?;
    Ok(value)
}

fn is_opening(rest: &[u8]) -> bool
    ensures { result ≡ opens rest.now }
{
    begins(b'[', rest) || begins(b'{', rest)
}

/// The value behind a key, on the key's line.
#[tactic(auto, unfolding(crate::specs::Blocks::block_value))]
pub(crate) fn block_value(alloc: Global, levels: usize, rest: &[u8]) -> Result<Tree, LineRefused>
    ensures { Gives (λ x. x) result (block_value levels rest.now) }
{
    let (value, after) = if is_opening(rest) {
        flow_value(alloc, levels, rest)?
    } else {
        scalar_from(alloc, false, rest)?
    };
    line_value(value, after)
}

/// What follows the colon of a key.
#[tactic(auto, unfolding(crate::specs::Blocks::behind_colon))]
pub(crate) fn behind_colon(alloc: Global, stack: Stack, rest: &[u8]) -> Result<State, LineRefused>
    ensures { Gives (λ x. x) result (behind_colon stack rest.now) }
{
    let part = next_part(false, rest)?;
    if part.is_empty() {
        return Ok(State::Blocks(stack, None));
    }
    let value = block_value(alloc, levels_in(&stack), part)?;
    Ok(State::Blocks(stack, Some(value)))
}

/// A value that is no key's and no block.
fn value_alone(place: Place, stack: Stack, column: usize, value: Tree) -> Result<State, LineRefused>
    ensures { Gives (λ x. x) result (value_alone place stack column value) }
{
    match place {
        Place::Document => Ok(State::Alone(column, value)),
        Place::Deeper => Err(LineRefused::Cause(YamlCause::Syntax)),
        Place::Item => Ok(State::Blocks(stack, Some(value))),
    }
}

/// A scalar behind which no colon follows.
#[tactic(auto, unfolding(crate::specs::Blocks::scalar_alone))]
fn scalar_alone(alloc: Global, scanned: &Scanned, after: &[u8]) -> Result<Tree, LineRefused>
    ensures { Gives (λ x. x) result (scalar_alone scanned.now after.now) }
{
    if colon_and_tab(scanned, after) {
        return Err(LineRefused::Cause(YamlCause::Tab));
    }
    let value = value_at(alloc, scanned, after)?;
    line_value(value, after)
}

/// The first key of a map at this column.
#[tactic(auto, unfolding(crate::specs::Blocks::first_key))]
fn first_key(
    alloc: Global,
    mut stack: Stack,
    column: usize,
    scanned: &Scanned,
    after: &[u8],
) -> Result<State, LineRefused>
    ensures { Gives (λ x. x) result (first_key stack column scanned.now after.now) }
{
    if LEVELS <= stack.len() {
        return Err(LineRefused::Cause(YamlCause::TooDeep));
    }
    let key = key_of(alloc, scanned)?;
    stack.push(Frame {
        indent: column,
        open_block: Open::Map(Entries::new(alloc), key),
    })?;
    behind_colon(alloc, stack, behind_first(after))
}

/// A map's first key, or a value.
#[tactic(auto, unfolding(crate::specs::Blocks::key_or_value))]
fn key_or_value(
    alloc: Global,
    place: Place,
    stack: Stack,
    column: usize,
    rest: &[u8],
) -> Result<State, LineRefused>
    ensures { Gives (λ x. x) result (key_or_value place stack column rest.now) }
{
    if is_opening(rest) {
        let (value, after) = flow_value(alloc, levels_in(&stack), rest)?;
        let value = line_value(value, after)?;
        return value_alone(place, stack, column, value);
    }
    let (scanned, after) = scan(alloc, false, rest)?;
    if is_mark(b':', after) {
        return first_key(alloc, stack, column, &scanned, after);
    }
    let value = scalar_alone(alloc, &scanned, after)?;
    value_alone(place, stack, column, value)
}

/// What follows the dash of an item, within so many levels.
#[cycle(content)]
#[tactic(auto)]
pub(crate) fn behind_dash(
    alloc: Global,
    levels: usize,
    stack: Stack,
    column: usize,
    rest: &[u8],
) -> Result<State, LineRefused>
    requires { column + length rest.now < 2 ^ 64 }
    ensures { Gives (λ x. x) result (behind_dash (content levels Item) stack column rest.now) }
{
    let part = next_part(false, behind_first(rest))?;
    if part.is_empty() {
        return Ok(State::Blocks(stack, None));
    }
    let column = column + (rest.len() - part.len());
    content(alloc, levels, Place::Item, stack, column, part)
}

/// What begins at this column, where so many lists and maps may still be nested.
#[cycle(content)]
#[tactic(auto, using(crate::proofs::BlockLaws::levels), unfolding(crate::specs::Blocks::content))]
pub(crate) fn content(
    alloc: Global,
    levels: usize,
    place: Place,
    mut stack: Stack,
    column: usize,
    rest: &[u8],
) -> Result<State, LineRefused>
    requires { column + length rest.now < 2 ^ 64 }
    ensures { Gives (λ x. x) result (content levels place stack column rest.now) }
{
    if !is_mark(b'-', rest) {
        return key_or_value(alloc, place, stack, column, rest);
    }
    if levels == 0 {
        return Err(LineRefused::Cause(YamlCause::TooDeep));
    }
    stack.push(Frame {
        indent: column,
        open_block: Open::List(Items::new(alloc)),
    })?;
    behind_dash(alloc, levels - 1, stack, column, rest)
}
