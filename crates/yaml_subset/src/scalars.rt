//! Scalars, and what they stand for as values and as keys.

ghost use Rattle.std.specs.Prelude.{◌≡◌, ◌==◌, false, codes, IfOk};
ghost use Rattle.std.specs.Str.{bytes_eq};
ghost use Rattle.yaml_subset.specs.Scalars.{text_of, plain_scalar, scan, is_null, is_true_word, is_false_word, plain_value, scalar_value, text_tree, as_key, key_of, is_merge, is_wide, left_scalar, value_at, scalar_from};
ghost use Rattle.yaml_subset.specs.Gives.{Gives};

use crate::characters::is_mark;
use crate::fault::{LineRefused, YamlCause, YamlForm};
use crate::numbers::{Number, number_of};
use crate::plain::{plain_fault, plain_span};
use crate::quoted::{double_quoted, single_quoted};
use net_base::{Bytes, NoMemory, Text};
use std::alloc::{AllocError, Global};
use yaml_tree::{Key, Tree};

/// A scalar as it is written: plain, or quoted with its escapes resolved.
#[derive(Debug, Drop)]
pub struct Scanned {
    pub plain: bool,
    pub text: Bytes,
}

/// The bytes as a text.
#[tactic(auto, using(crate::proofs::Text::valid_lens), unfolding(crate::specs::Scalars::text_of))]
fn text_of(alloc: Global, bytes: &[u8]) -> Result<Text, LineRefused>
    ensures { Gives (λ x. x) result (text_of bytes.now) }
{
    match std::str::from_utf8(bytes) {
        Ok(text) => Ok(Text::from_str(alloc, text)?),
        Err(_) => Err(LineRefused::Cause(YamlCause::Syntax)),
    }
}

/// A plain scalar, and what follows it.
#[tactic(auto, unfolding(crate::specs::Scalars::plain_scalar))]
fn plain_scalar(alloc: Global, flow: bool, rest: &[u8]) -> Result<(Scanned, &[u8]), LineRefused>
    ensures { Gives (λ x. (x.0, x.1.now)) result (plain_scalar flow rest.now) }
{
    let (end, after) = plain_span(flow, rest)?;
    let (text, _) = rest.split_at(rest.len().saturating_sub(end.len()));
    let text = Bytes::from_slice(alloc, text)?;
    Ok((Scanned { plain: true, text }, after))
}

/// A scalar as it is written, within or outside of flow brackets, and what follows it.
#[tactic(auto, unfolding(crate::specs::Scalars::scan))]
pub(crate) fn scan(alloc: Global, flow: bool, rest: &[u8]) -> Result<(Scanned, &[u8]), LineRefused>
    ensures { Gives (λ x. (x.0, x.1.now)) result (scan flow rest.now) }
{
    match rest {
        [b'"', tail @ ..] => {
            let (text, after) = double_quoted(alloc, tail)?;
            Ok((Scanned { plain: false, text }, after))
        }
        [b'\'', tail @ ..] => {
            let (text, after) = single_quoted(alloc, tail)?;
            Ok((Scanned { plain: false, text }, after))
        }
        _ => match plain_fault(flow, rest) {
            Some(cause) => Err(LineRefused::Cause(cause)),
            None => plain_scalar(alloc, flow, rest),
        },
    }
}

fn is_word(text: &[u8], word: &[u8]) -> bool
    ensures { result ≡ bytes_eq text.now word.now }
{
    text == word
}

fn is_null(text: &[u8]) -> bool
    ensures { result ≡ is_null text.now }
{
    is_word(text, b"~") || is_word(text, b"null")
}

fn is_true_word(text: &[u8]) -> bool
    ensures { result ≡ is_true_word text.now }
{
    is_word(text, b"true") || is_word(text, b"True") || is_word(text, b"TRUE")
}

fn is_false_word(text: &[u8]) -> bool
    ensures { result ≡ is_false_word text.now }
{
    is_word(text, b"false") || is_word(text, b"False") || is_word(text, b"FALSE")
}

fn text_tree(alloc: Global, text: &[u8]) -> Result<Tree, LineRefused>
    ensures { Gives (λ x. x) result (text_tree text.now) }
{
    Ok(Tree::Text(text_of(alloc, text)?))
}

/// A plain scalar is Null, a Bool, an Int or a text.
#[tactic(auto, unfolding(crate::specs::Scalars::plain_value))]
fn plain_value(alloc: Global, text: &[u8]) -> Result<Tree, LineRefused>
    ensures { Gives (λ x. x) result (plain_value text.now) }
{
    if is_null(text) {
        return Ok(Tree::Null);
    }
    if is_true_word(text) {
        return Ok(Tree::Bool(true));
    }
    if is_false_word(text) {
        return Ok(Tree::Bool(false));
    }
    match number_of(text) {
        Number::Not => text_tree(alloc, text),
        Number::Whole(n) => Ok(Tree::Int(n)),
        Number::Wide => Err(LineRefused::Cause(YamlCause::LeftOut(YamlForm::Wide))),
    }
}

/// What a scalar stands for as a value.
#[tactic(auto, unfolding(crate::specs::Scalars::scalar_value))]
fn scalar_value(alloc: Global, scanned: &Scanned) -> Result<Tree, LineRefused>
    ensures { Gives (λ x. x) result (scalar_value scanned.now) }
{
    if scanned.plain {
        plain_value(alloc, scanned.text.as_slice())
    } else {
        text_tree(alloc, scanned.text.as_slice())
    }
}

fn as_key(tree: Tree) -> Result<Key, LineRefused>
    ensures { Gives (λ x. x) result (as_key tree) }
{
    match tree {
        Tree::Int(n) => Ok(Key::Int(n)),
        Tree::Text(text) => Ok(Key::Text(text)),
        _ => Err(LineRefused::Cause(YamlCause::Syntax)),
    }
}

/// The plain `<<`.
fn is_merge(scanned: &Scanned) -> bool
    ensures { result ≡ is_merge scanned.now }
{
    scanned.plain && is_word(scanned.text.as_slice(), b"<<")
}

/// A whole number outside `i128`.
pub(crate) fn is_wide(scanned: &Scanned) -> bool
    ensures { result ≡ is_wide scanned.now }
{
    scanned.plain && matches!(number_of(scanned.text.as_slice()), Number::Wide)
}

/// What a scalar stands for as a value, where this follows; `<<` with its colon is left out.
#[tactic(auto, unfolding(crate::specs::Scalars::value_at))]
pub(crate) fn value_at(alloc: Global, scanned: &Scanned, after: &[u8]) -> Result<Tree, LineRefused>
    ensures { Gives (λ x. x) result (value_at scanned.now after.now) }
{
    if is_mark(b':', after) && is_merge(scanned) {
        return Err(LineRefused::Cause(YamlCause::LeftOut(YamlForm::MergeKey)));
    }
    scalar_value(alloc, scanned)
}

/// A scalar with its value, within or outside of flow brackets, and what follows it.
#[tactic(auto, unfolding(crate::specs::Scalars::scalar_from))]
pub(crate) fn scalar_from(
    alloc: Global,
    flow: bool,
    rest: &[u8],
) -> Result<(Tree, &[u8]), LineRefused>
    ensures { Gives (λ x. (x.0, x.1.now)) result (scalar_from flow rest.now) }
{
    let (scanned, after) = scan(alloc, flow, rest)?;
    let value = value_at(alloc, &scanned, after)?;
    Ok((value, after))
}

/// The form of the scalar from which a line begins, where that is left out: a whole number outside `i128`,
/// or the plain `<<` with its colon.
pub(crate) fn left_scalar(alloc: Global, rest: &[u8]) -> Result<Option<YamlForm>, NoMemory>
    ensures { IfOk result (λ form. form ≡ left_scalar (scan false rest.now)) }
{
    match scan(alloc, false, rest) {
        Err(LineRefused::Memory) => Err(AllocError),
        Err(LineRefused::Cause(_)) => Ok(None),
        Ok((scanned, after)) => {
            if is_wide(&scanned) {
                Ok(Some(YamlForm::Wide))
            } else if is_merge(&scanned) && is_mark(b':', after) {
                Ok(Some(YamlForm::MergeKey))
            } else {
                Ok(None)
            }
        }
    }
}

/// What a scalar stands for as a key.
#[tactic(auto, unfolding(crate::specs::Scalars::key_of))]
pub(crate) fn key_of(alloc: Global, scanned: &Scanned) -> Result<Key, LineRefused>
    ensures { Gives (λ x. x) result (key_of scanned.now) }
{
    if is_merge(scanned) {
        return Err(LineRefused::Cause(YamlCause::LeftOut(YamlForm::MergeKey)));
    }
    as_key(scalar_value(alloc, scanned)?)
}
