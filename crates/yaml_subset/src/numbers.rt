//! Whole numbers, in decimal or hexadecimal digits.

ghost use Rattle.std.specs.Prelude.{◌≡◌};
ghost use Rattle.std.specs.List.{list_all};
ghost use Rattle.yaml_subset.specs.Numbers.{grown, magnitude, signed, number_in, is_hex_digit, is_digit, is_hex, is_decimal, decimal, number_of};

use crate::quoted::hex_digit;

/// What a plain scalar is as a number.
#[derive(Clone, Copy, Debug)]
pub enum Number {
    /// No number.
    Not,
    Whole(i128),
    /// A whole number outside the range of `i128`.
    Wide,
}

/// The greatest magnitude of an `i128`.
const GREATEST: u128 = 170_141_183_460_469_231_731_687_303_715_884_105_728;

#[tactic(auto, unfolding(crate::specs::Numbers::grown))]
fn grown(base: u128, m: u128, digit: u128) -> Option<u128>
    ensures { result ≡ grown base m digit }
{
    let n = m.checked_mul(base)?.checked_add(digit)?;
    if n <= GREATEST { Some(n) } else { None }
}

#[tactic(auto, unfolding(crate::specs::Numbers::magnitude))]
fn magnitude(base: u128, digits: &[u8]) -> Option<u128>
    ensures { result ≡ magnitude base 0 digits.now }
{
    let mut m = 0;
    let mut rest = digits;
    while let [byte, tail @ ..] = rest {
        let digit = hex_digit(*byte).unwrap_or(0);
        m = grown(base, m, u128::from(digit))?;
        rest = tail;
    }
    Some(m)
}

#[tactic(auto, unfolding(crate::specs::Numbers::signed))]
fn signed(negative: bool, m: u128) -> Option<i128>
    ensures { result ≡ signed negative m }
{
    if m < GREATEST {
        let n = m as i128;
        Some(if negative { 0 - n } else { n })
    } else if negative && m == GREATEST {
        Some(i128::MIN)
    } else {
        None
    }
}

#[tactic(auto, unfolding(crate::specs::Numbers::number_in))]
fn number_in(negative: bool, base: u128, digits: &[u8]) -> Number
    ensures { result ≡ number_in negative base digits.now }
{
    match magnitude(base, digits) {
        None => Number::Wide,
        Some(m) => match signed(negative, m) {
            None => Number::Wide,
            Some(n) => Number::Whole(n),
        },
    }
}

fn is_hex_digit(byte: u8) -> bool
    ensures { result ≡ is_hex_digit byte }
{
    hex_digit(byte).is_some()
}

fn is_digit(byte: u8) -> bool
    ensures { result ≡ is_digit byte }
{
    b'0' <= byte && byte <= b'9'
}

fn are_hex_digits(digits: &[u8]) -> bool
    ensures { result ≡ list_all is_hex_digit digits.now }
{
    digits.iter().all(|byte| is_hex_digit(*byte))
}

fn are_digits(digits: &[u8]) -> bool
    ensures { result ≡ list_all is_digit digits.now }
{
    digits.iter().all(|byte| is_digit(*byte))
}

fn is_hex(digits: &[u8]) -> bool
    ensures { result ≡ is_hex digits.now }
{
    match digits {
        [] => false,
        [_, ..] => are_hex_digits(digits),
    }
}

fn is_decimal(digits: &[u8]) -> bool
    ensures { result ≡ is_decimal digits.now }
{
    match digits {
        [] => false,
        [first, ..] => are_digits(digits) && (*first != b'0' || digits.len() == 1),
    }
}

#[tactic(auto, unfolding(crate::specs::Numbers::decimal))]
fn decimal(text: &[u8]) -> Number
    ensures { result ≡ decimal text.now }
{
    if let [b'-', digits @ ..] = text {
        if is_decimal(digits) {
            return number_in(true, 10, digits);
        }
        return Number::Not;
    }
    if is_decimal(text) {
        number_in(false, 10, text)
    } else {
        Number::Not
    }
}

/// A whole number is a decimal one, or `0x` and hexadecimal digits.
#[tactic(auto, unfolding(crate::specs::Numbers::number_of))]
pub(crate) fn number_of(text: &[u8]) -> Number
    ensures { result ≡ number_of text.now }
{
    if let [b'0', b'x', digits @ ..] = text {
        if is_hex(digits) {
            return number_in(false, 16, digits);
        }
    }
    decimal(text)
}
