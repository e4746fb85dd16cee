//! What a line adds to the open blocks.

ghost use Rattle.std.specs.Prelude.{◌≡◌, ◌-◌, ◌==◌, ◌^◌, ◌<◌, ◌+◌, [], length, IfOk};
ghost use Rattle.yaml_subset.specs.Blocks.{is_list, begins_block, ends_block, closed, settle, close_all, misplaced, no_item, next_entry, go_on, in_blocks, is_marker, at_start, is_start, by_state, counted_line, step, finish};
ghost use Rattle.yaml_subset.specs.Characters.{form_or};
ghost use Rattle.yaml_subset.specs.Gives.{Gives};

use crate::blocks::{LEVELS, Place, State, behind_colon, behind_dash, content, levels_in};
use crate::characters::{begins, behind_first, is_at_gap, is_mark, left_out, next_part, stray};
use crate::fault::{LineRefused, YamlCause, YamlForm};
use crate::flow::entry_key;
use crate::scalars::left_scalar;
use crate::stack::{Frame, Open, Stack};
use net_base::NoMemory;
use std::alloc::Global;
use yaml_tree::Tree;

/// A cause, which yields to a form that is left out.
fn form_or(cause: YamlCause, form: Option<YamlForm>) -> YamlCause
    ensures { result ≡ form_or cause form }
{
    match form {
        None => cause,
        Some(form) => YamlCause::LeftOut(form),
    }
}

/// The cause at a line's first character, where nothing may begin.
#[tactic(auto, unfolding(crate::specs::Blocks::misplaced))]
fn misplaced(alloc: Global, cause: YamlCause, rest: &[u8]) -> Result<YamlCause, NoMemory>
    ensures { IfOk result (λ c. c ≡ misplaced cause rest.now) }
{
    if begins(b'\t', rest) {
        return Ok(YamlCause::Tab);
    }
    let cause = form_or(cause, left_scalar(alloc, rest)?);
    Ok(form_or(cause, left_out(rest)))
}

/// What is wrong with a line of a list that is no item.
fn no_item(alloc: Global, rest: &[u8]) -> Result<YamlCause, NoMemory>
    ensures { IfOk result (λ c. c ≡ no_item rest.now) }
{
    if begins(b'-', rest) {
        let cause = stray(behind_first(rest));
        Ok(form_or(cause, left_scalar(alloc, rest)?))
    } else {
        misplaced(alloc, YamlCause::Syntax, rest)
    }
}

/// A block with its last value.
fn closed(alloc: Global, frame: Frame, value: Tree) -> Result<Tree, NoMemory>
    ensures { IfOk result (λ t. t ≡ closed frame value) }
{
    match frame.open_block {
        Open::List(mut items) => {
            items.push(value)?;
            Ok(Tree::List(items))
        }
        Open::Map(pairs, key) => {
            let pairs = pairs.with(alloc, key, value)?;
            Ok(Tree::Map(pairs.into_pairs()))
        }
    }
}

fn is_list(block: &Open) -> bool
    ensures { result ≡ is_list block.now }
{
    matches!(block, Open::List(_))
}

/// Whether a line at this indent ends the block, which stands within those of the stack.
fn ends_block(indent: usize, item: bool, frame: &Frame, stack: &Stack) -> bool
    ensures { result ≡ ends_block indent item frame.now stack.now }
{
    indent < frame.indent
        || frame.indent == indent && is_list(&frame.open_block) && !item && stack.top_is(indent)
}

/// Ends the blocks that do not go on at a line of this indent.
#[tactic(auto, unfolding(crate::specs::Blocks::settle))]
fn settle(
    alloc: Global,
    indent: usize,
    item: bool,
    mut stack: Stack,
    mut value: Tree,
) -> Result<(Stack, Tree), NoMemory>
    ensures { IfOk result (λ r. r ≡ settle indent item stack value) }
{
    while let Some(frame) = stack.pop() {
        if ends_block(indent, item, &frame, &stack) {
            value = closed(alloc, frame, value)?;
        } else {
            stack.push(frame)?;
            return Ok((stack, value));
        }
    }
    Ok((stack, value))
}

/// Ends all open blocks.
#[tactic(auto, unfolding(crate::specs::Blocks::close_all))]
fn close_all(alloc: Global, mut stack: Stack, mut value: Tree) -> Result<Tree, NoMemory>
    ensures { IfOk result (λ t. t ≡ close_all stack value) }
{
    while let Some(frame) = stack.pop() {
        value = closed(alloc, frame, value)?;
    }
    Ok(value)
}

/// The next entry of an open block, behind its last value.
fn next_entry(
    alloc: Global,
    block: Open,
    mut stack: Stack,
    indent: usize,
    value: Tree,
    rest: &[u8],
) -> Result<State, LineRefused>
    requires { indent + length rest.now < 2 ^ 64 }
    ensures { Gives (λ x. x) result (next_entry block stack indent value rest.now) }
{
    match block {
        Open::List(mut items) => {
            if !is_mark(b'-', rest) {
                return Err(LineRefused::Cause(no_item(alloc, rest)?));
            }
            items.push(value)?;
            let open_block = Open::List(items);
            stack.push(Frame { indent, open_block })?;
            let levels = levels_in(&stack);
            behind_dash(alloc, levels, stack, indent, rest)
        }
        Open::Map(pairs, key) => {
            let pairs = pairs.with(alloc, key, value)?;
            let (key, after) = entry_key(alloc, false, &pairs, rest)?;
            let open_block = Open::Map(pairs, key);
            stack.push(Frame { indent, open_block })?;
            behind_colon(alloc, stack, after)
        }
    }
}

/// A line that begins no deeper block.
#[tactic(auto, unfolding(crate::specs::Blocks::go_on))]
fn go_on(
    alloc: Global,
    mut stack: Stack,
    value: Tree,
    indent: usize,
    rest: &[u8],
) -> Result<State, LineRefused>
    requires { indent + length rest.now < 2 ^ 64 }
    ensures { Gives (λ x. x) result (go_on (stack, value) indent rest.now) }
{
    let Some(frame) = stack.pop() else {
        return Err(LineRefused::Cause(misplaced(alloc, YamlCause::Indent, rest)?));
    };
    if frame.indent == indent {
        next_entry(alloc, frame.open_block, stack, indent, value, rest)
    } else {
        Err(LineRefused::Cause(misplaced(alloc, YamlCause::Indent, rest)?))
    }
}

/// Whether a line at this indent begins a block under an entry that has no value yet.
fn begins_block(stack: &Stack, slot: &Option<Tree>, indent: usize, item: bool) -> bool
    ensures { result ≡ begins_block stack.now slot.now indent item }
{
    match slot {
        Some(_) => false,
        None => stack.takes_block(indent, item),
    }
}

/// A line within open blocks.
#[tactic(auto, unfolding(crate::specs::Blocks::in_blocks))]
fn in_blocks(
    alloc: Global,
    stack: Stack,
    slot: Option<Tree>,
    indent: usize,
    rest: &[u8],
) -> Result<State, LineRefused>
    requires { indent + length rest.now < 2 ^ 64 }
    ensures { Gives (λ x. x) result (in_blocks stack slot indent rest.now) }
{
    let item = is_mark(b'-', rest);
    if begins_block(&stack, &slot, indent, item) {
        let levels = levels_in(&stack);
        return content(alloc, levels, Place::Deeper, stack, indent, rest);
    }
    let value = slot.unwrap_or(Tree::Null);
    let (stack, value) = settle(alloc, indent, item, stack, value)?;
    go_on(alloc, stack, value, indent, rest)
}

/// Three of these at the start of a line, and then a space or the line's end.
fn is_marker(byte: u8, line: &[u8]) -> bool
    ensures { result ≡ is_marker byte line.now }
{
    match line {
        [a, b, c, tail @ ..] => *a == byte && *b == byte && *c == byte && is_at_gap(tail),
        _ => false,
    }
}

/// The first line that counts, where `---` may stand alone.
#[tactic(auto, unfolding(crate::specs::Blocks::at_start))]
fn at_start(alloc: Global, line: &[u8], indent: usize, rest: &[u8]) -> Result<State, LineRefused>
    requires { indent + length rest.now < 2 ^ 64 }
    ensures { Gives (λ x. x) result (at_start line.now indent rest.now) }
{
    if is_marker(b'-', line) {
        let (_, after) = line.split_at(3);
        if next_part(false, after)?.is_empty() {
            return Ok(State::Headed);
        }
    }
    let stack = Stack::new(alloc);
    content(alloc, LEVELS, Place::Document, stack, indent, rest)
}

fn is_start(state: &State) -> bool
    ensures { result ≡ is_start state.now }
{
    matches!(state, State::Start)
}

/// A line by what came before it.
fn by_state(
    alloc: Global,
    state: State,
    line: &[u8],
    indent: usize,
    rest: &[u8],
) -> Result<State, LineRefused>
    requires { indent + length rest.now < 2 ^ 64 }
    ensures { Gives (λ x. x) result (by_state state line.now indent rest.now) }
{
    match state {
        State::Start => at_start(alloc, line, indent, rest),
        State::Headed => {
            let stack = Stack::new(alloc);
            content(alloc, LEVELS, Place::Document, stack, indent, rest)
        }
        State::Alone(at, _) => {
            let cause = if at == indent {
                YamlCause::Syntax
            } else {
                YamlCause::Indent
            };
            Err(LineRefused::Cause(misplaced(alloc, cause, rest)?))
        }
        State::Blocks(stack, slot) => in_blocks(alloc, stack, slot, indent, rest),
    }
}

/// A line that counts, with its indent and what follows that.
#[tactic(auto, unfolding(crate::specs::Blocks::counted_line))]
fn counted_line(
    alloc: Global,
    state: State,
    line: &[u8],
    indent: usize,
    rest: &[u8],
) -> Result<State, LineRefused>
    requires { indent + length rest.now < 2 ^ 64 }
    ensures { Gives (λ x. x) result (counted_line state line.now indent rest.now) }
{
    if begins(b'%', line) {
        return Err(LineRefused::Cause(YamlCause::LeftOut(YamlForm::Directive)));
    }
    if is_marker(b'.', line) || is_marker(b'-', line) && !is_start(&state) {
        return Err(LineRefused::Cause(YamlCause::LeftOut(YamlForm::Documents)));
    }
    by_state(alloc, state, line, indent, rest)
}

/// One line more.
#[tactic(auto, unfolding(crate::specs::Blocks::step))]
pub(crate) fn step(alloc: Global, state: State, line: &[u8]) -> Result<State, LineRefused>
    ensures { Gives (λ x. x) result (step state line.now) }
{
    let rest = next_part(true, line)?;
    if rest.is_empty() {
        return Ok(state);
    }
    let indent = line.len() - rest.len();
    counted_line(alloc, state, line, indent, rest)
}

/// The tree of the lines so far.
pub(crate) fn finish(alloc: Global, state: State) -> Result<Tree, NoMemory>
    ensures { IfOk result (λ t. t ≡ finish state) }
{
    match state {
        State::Start | State::Headed => Ok(Tree::Null),
        State::Alone(_, value) => Ok(value),
        State::Blocks(stack, slot) => close_all(alloc, stack, slot.unwrap_or(Tree::Null)),
    }
}
