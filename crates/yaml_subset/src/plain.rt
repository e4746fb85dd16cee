//! Plain scalars: where they begin and where they end.

ghost use Rattle.std.specs.Prelude.{◌≡◌};
ghost use Rattle.yaml_subset.specs.Plain.{is_flow, is_reserved, plain_fault, plain_ends, plain_from};
ghost use Rattle.yaml_subset.specs.Gives.{Gives};

use crate::characters::{begins, is_at_gap, is_control, left_out};
use crate::fault::{LineRefused, YamlCause, YamlForm};

/// One of `, [ ] { }`.
pub(crate) fn is_flow(byte: u8) -> bool
    ensures { result ≡ is_flow byte }
{
    byte == b',' || byte == b'[' || byte == b']' || byte == b'{' || byte == b'}'
}

/// One of `# ' " % @` and the backtick.
fn is_reserved(byte: u8) -> bool
    ensures { result ≡ is_reserved byte }
{
    byte == b'#' || byte == b'\'' || byte == b'"' || byte == b'%' || byte == b'@' || byte == b'`'
}

/// What keeps a plain scalar from beginning here.
pub(crate) fn plain_fault(flow: bool, rest: &[u8]) -> Option<YamlCause>
    ensures { result ≡ plain_fault flow rest.now }
{
    let [first, tail @ ..] = rest else {
        return Some(YamlCause::Syntax);
    };
    if let Some(form) = left_out(rest) {
        return Some(YamlCause::LeftOut(form));
    }
    if *first == b'\t' {
        Some(YamlCause::Tab)
    } else if is_control(*first) || is_flow(*first) || is_reserved(*first) {
        Some(YamlCause::Syntax)
    } else if (*first == b'-' || *first == b':') && is_at_gap(tail) {
        if flow && tail.is_empty() {
            Some(YamlCause::LeftOut(YamlForm::LongFlow))
        } else {
            Some(YamlCause::Syntax)
        }
    } else {
        None
    }
}

/// Whether a plain scalar ends before this byte, behind which the tail comes.
fn plain_ends(flow: bool, byte: u8, tail: &[u8]) -> bool
    ensures { result ≡ plain_ends flow byte tail.now }
{
    byte == b' ' && begins(b'#', tail) || byte == b':' && is_at_gap(tail) || flow && is_flow(byte)
}

/// What follows a plain scalar without the spaces at its end, and with them.
#[tactic(auto, unfolding(crate::specs::Plain::plain_from))]
pub(crate) fn plain_span(flow: bool, text: &[u8]) -> Result<(&[u8], &[u8]), LineRefused>
    ensures { Gives (λ x. (x.0.now, x.1.now)) result (plain_from flow text.now text.now) }
{
    let mut end = text;
    let mut rest = text;
    while let [byte, tail @ ..] = rest {
        if plain_ends(flow, *byte, tail) {
            break;
        }
        if *byte == b'\t' {
            return Err(LineRefused::Cause(YamlCause::Tab));
        }
        if is_control(*byte) {
            return Err(LineRefused::Cause(YamlCause::Syntax));
        }
        if *byte != b' ' {
            end = tail;
        }
        rest = tail;
    }
    Ok((end, rest))
}
