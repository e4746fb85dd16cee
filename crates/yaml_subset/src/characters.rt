//! The bytes of one line, and what may stand between its parts.

ghost use Rattle.std.specs.Prelude.{◌≡◌, ◌≤◌, length, drop, IfOk};
ghost use Rattle.yaml_subset.specs.Characters.{is_empty, begins, skip, is_control, is_kept, at_gap, marks, next_part, stray, line_end, left_out};
ghost use Rattle.std.specs.List.{list_all};
ghost use Rattle.yaml_subset.specs.Gives.{Gives};

use crate::fault::{LineRefused, YamlCause, YamlForm};

/// Whether the bytes begin with this one.
pub(crate) fn begins(byte: u8, rest: &[u8]) -> bool
    ensures { result ≡ begins byte rest.now }
{
    match rest {
        [] => false,
        [first, ..] => *first == byte,
    }
}

/// What follows the first byte.
pub(crate) fn behind_first(rest: &[u8]) -> &[u8]
    ensures { result.now ≡ drop 1 rest.now }
{
    match rest {
        [] => rest,
        [_, tail @ ..] => tail,
    }
}

/// What follows the leading spaces.
pub(crate) fn skip_spaces(text: &[u8]) -> &[u8]
    ensures value { result.now ≡ skip text.now }
    ensures within { length result.now ≤ length text.now }
{
    let mut rest = text;
    while let [b' ', tail @ ..] = rest {
        rest = tail;
    }
    rest
}

/// A control character: below 0x20, or 0x7f.
pub(crate) fn is_control(byte: u8) -> bool
    ensures { result ≡ is_control byte }
{
    byte < 32 || byte == 127
}

/// Whether the byte may stand in quotes and in comments.
pub(crate) fn is_kept(byte: u8) -> bool
    ensures { result ≡ is_kept byte }
{
    byte == b'\t' || !is_control(byte)
}

/// Whether a space or the line's end comes.
pub(crate) fn is_at_gap(rest: &[u8]) -> bool
    ensures { result ≡ at_gap rest.now }
{
    match rest {
        [] => true,
        [first, ..] => *first == b' ',
    }
}

/// Whether this character comes, and then a space or the line's end.
pub(crate) fn is_mark(byte: u8, rest: &[u8]) -> bool
    ensures { result ≡ marks byte rest.now }
{
    match rest {
        [] => false,
        [first, tail @ ..] => *first == byte && is_at_gap(tail),
    }
}

/// Whether all of the bytes may stand in a comment.
pub(crate) fn are_kept(text: &[u8]) -> bool
    ensures { result ≡ list_all is_kept text.now }
{
    text.iter().all(|byte| is_kept(*byte))
}

/// The next part of the line, behind spaces; nothing where a comment or the line's end comes.
#[tactic(auto, unfolding(crate::specs::Characters::next_part))]
pub(crate) fn next_part(fresh: bool, rest: &[u8]) -> Result<&[u8], LineRefused>
    ensures value { Gives (λ x. x.now) result (next_part fresh rest.now) }
    ensures within { IfOk result (λ x. length x.now ≤ length rest.now) }
{
    let next = skip_spaces(rest);
    if !(begins(b'#', next) && (fresh || begins(b' ', rest))) {
        return Ok(next);
    }
    if are_kept(next) {
        Ok(&[])
    } else {
        Err(LineRefused::Cause(YamlCause::Syntax))
    }
}

/// What is wrong with a character that stands where none may.
pub(crate) fn stray(rest: &[u8]) -> YamlCause
    ensures { result ≡ stray rest.now }
{
    if begins(b'\t', rest) {
        YamlCause::Tab
    } else {
        YamlCause::Syntax
    }
}

/// Nothing may follow but spaces and a comment.
#[tactic(auto, unfolding(crate::specs::Characters::line_end))]
pub(crate) fn line_end(rest: &[u8]) -> Result<(), LineRefused>
    ensures { Gives (λ x. x) result (line_end rest.now) }
{
    let next = next_part(false, rest)?;
    match next {
        [] => Ok(()),
        [_, ..] => Err(LineRefused::Cause(stray(next))),
    }
}

/// The form that is left out and begins with this character.
pub(crate) fn left_out(rest: &[u8]) -> Option<YamlForm>
    ensures { result ≡ left_out rest.now }
{
    match rest {
        [b'&', ..] => Some(YamlForm::Anchor),
        [b'*', ..] => Some(YamlForm::Alias),
        [b'!', ..] => Some(YamlForm::Tag),
        [b'|', ..] | [b'>', ..] => Some(YamlForm::BlockScalar),
        [b'?', tail @ ..] if is_at_gap(tail) => Some(YamlForm::ComplexKey),
        _ => None,
    }
}
