//! Quoted scalars: their bytes, read one by one up to the closing quote.

ghost use Rattle.std.specs.Prelude.{◌≡◌, ◌<◌, ◌++◌, [], false, IfSome, OnOk, OnErr, Ok, Err};
ghost use Rattle.yaml_subset.specs.declared.quoted.Escape.TheVariants.{Outside};
ghost use Rattle.yaml_subset.specs.Quoted.{single_from, hex_digit, utf8_bytes, after_backslash, first_of_two, next_of_hex, double_step, is_outside, double_from};
ghost use Rattle.yaml_subset.specs.Added.{added_bytes, step_view};
ghost use Rattle.yaml_subset.specs.Gives.{Gives};

use crate::characters::is_kept;
use crate::fault::{LineRefused, YamlCause, YamlForm};
use net_base::{Bytes, NoMemory};
use std::alloc::Global;

/// Where a double quoted scalar stands: outside of an escape, behind a backslash, behind `\x`, or
/// before the last `left` digits of a number.
#[derive(Clone, Copy, Debug)]
pub enum Escape {
    Outside,
    Begun,
    Low,
    Hex { left: u8, value: u16 },
}

/// What one byte of a double quoted scalar adds.
#[derive(Clone, Copy, Debug)]
pub enum Added {
    Nothing,
    Byte(u8),
    Character(u16),
}

/// The rest of a single quoted scalar, and what follows it.
#[tactic(auto, unfolding(crate::specs::Quoted::single_from))]
pub(crate) fn single_quoted(alloc: Global, text: &[u8]) -> Result<(Bytes, &[u8]), LineRefused>
    ensures { Gives (λ x. (x.0, x.1.now)) result (single_from false [] text.now) }
{
    let mut out = Bytes::new(alloc);
    let mut seen = false;
    let mut rest = text;
    while let [byte, tail @ ..] = rest {
        if *byte == b'\'' {
            if seen {
                out.push(b'\'')?;
            }
            seen = !seen;
        } else if seen {
            return Ok((out, rest));
        } else if is_kept(*byte) {
            out.push(*byte)?;
        } else {
            return Err(LineRefused::Cause(YamlCause::Syntax));
        }
        rest = tail;
    }
    if seen {
        Ok((out, rest))
    } else {
        Err(LineRefused::Cause(YamlCause::LeftOut(YamlForm::LongQuote)))
    }
}

/// The value of a hexadecimal digit.
pub(crate) fn hex_digit(byte: u8) -> Option<u8>
    ensures value { result ≡ hex_digit byte }
    ensures small { IfSome result (λ d. d < 16) }
{
    match byte {
        b'0'..=b'9' => Some(byte - b'0'),
        b'a'..=b'f' => Some(byte - 87),
        b'A'..=b'F' => Some(byte - 55),
        _ => None,
    }
}

fn after_backslash(byte: u8) -> Result<(Escape, Added), LineRefused>
    ensures { Gives step_view result (after_backslash byte) }
{
    match byte {
        b'\\' | b'"' => Ok((Escape::Outside, Added::Byte(byte))),
        b'n' => Ok((Escape::Outside, Added::Byte(b'\n'))),
        b't' => Ok((Escape::Outside, Added::Byte(b'\t'))),
        b'r' => Ok((Escape::Outside, Added::Byte(b'\r'))),
        b'x' => Ok((Escape::Low, Added::Nothing)),
        b'u' => Ok((Escape::Hex { left: 4, value: 0 }, Added::Nothing)),
        _ => Err(LineRefused::Cause(YamlCause::Syntax)),
    }
}

fn first_of_two(byte: u8) -> Result<(Escape, Added), LineRefused>
    ensures { Gives step_view result (first_of_two (hex_digit byte)) }
{
    match hex_digit(byte) {
        Some(digit) if digit < 8 => {
            let value = u16::from(digit);
            Ok((Escape::Hex { left: 1, value }, Added::Nothing))
        }
        _ => Err(LineRefused::Cause(YamlCause::Syntax)),
    }
}

fn next_of_hex(left: u8, value: u16, byte: u8) -> Result<(Escape, Added), LineRefused>
    ensures { Gives step_view result (next_of_hex left value (hex_digit byte)) }
{
    let Some(digit) = hex_digit(byte) else {
        return Err(LineRefused::Cause(YamlCause::Syntax));
    };
    if left == 3 && value == 13 && 8 <= digit {
        return Err(LineRefused::Cause(YamlCause::Syntax));
    }
    let value = ((u32::from(value) * 16 + u32::from(digit)) % 65536) as u16;
    if left <= 1 {
        Ok((Escape::Outside, Added::Character(value)))
    } else {
        Ok((
            Escape::Hex {
                left: left - 1,
                value,
            },
            Added::Nothing,
        ))
    }
}

#[tactic(auto, unfolding(crate::specs::Quoted::double_step))]
fn double_step(escape: Escape, byte: u8) -> Result<(Escape, Added), LineRefused>
    ensures { Gives step_view result (double_step escape byte) }
{
    match escape {
        Escape::Outside => {
            if byte == b'\\' {
                Ok((Escape::Begun, Added::Nothing))
            } else if is_kept(byte) {
                Ok((Escape::Outside, Added::Byte(byte)))
            } else {
                Err(LineRefused::Cause(YamlCause::Syntax))
            }
        }
        Escape::Begun => after_backslash(byte),
        Escape::Low => first_of_two(byte),
        Escape::Hex { left, value } => next_of_hex(left, value, byte),
    }
}

/// Adds a character below U+10000 in UTF-8.
fn push_utf8(out: &mut Bytes, n: u16) -> Result<(), NoMemory>
    ensures { OnOk result (out.new ≡ out.old ++ utf8_bytes n) }
{
    if n < 128 {
        out.push(n as u8)
    } else if n < 2048 {
        out.append(&[(n / 64 + 192) as u8, (n % 64 + 128) as u8])
    } else {
        let middle = (n / 64 % 64 + 128) as u8;
        out.append(&[(n / 4096 + 224) as u8, middle, (n % 64 + 128) as u8])
    }
}

fn add(out: &mut Bytes, added: Added) -> Result<(), NoMemory>
    ensures { OnOk result (out.new ≡ out.old ++ added_bytes added) }
{
    match added {
        Added::Nothing => Ok(()),
        Added::Byte(byte) => out.push(byte),
        Added::Character(n) => push_utf8(out, n),
    }
}

fn is_outside(escape: Escape) -> bool
    ensures { result ≡ is_outside escape }
{
    matches!(escape, Escape::Outside)
}

/// The rest of a double quoted scalar, and what follows it.
#[tactic(auto, unfolding(crate::specs::Quoted::double_from))]
pub(crate) fn double_quoted(alloc: Global, text: &[u8]) -> Result<(Bytes, &[u8]), LineRefused>
    ensures { Gives (λ x. (x.0, x.1.now)) result (double_from Outside [] text.now) }
{
    let mut out = Bytes::new(alloc);
    let mut escape = Escape::Outside;
    let mut rest = text;
    while let [byte, tail @ ..] = rest {
        if *byte == b'"' && is_outside(escape) {
            return Ok((out, tail));
        }
        let (next, added) = double_step(escape, *byte)?;
        add(&mut out, added)?;
        escape = next;
        rest = tail;
    }
    Err(LineRefused::Cause(YamlCause::LeftOut(YamlForm::LongQuote)))
}
