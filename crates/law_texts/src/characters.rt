//! Digits and characters, worked out by hand against the definitions alone: the functions do nothing.

ghost use Rattle.std.specs.Prelude.{◌≡◌, ◌^◌, ℕ, true, false, None, [], ◌∷◌, codes, map};
ghost use Rattle.yaml_subset.specs.Numbers.{greatest, is_decimal};
ghost use Rattle.yaml_subset.specs.Quoted.{hex_digit, utf8_bytes};
ghost use Rattle.law_texts.specs.Numbers.{IsNoHexDigit, known};

/// A hexadecimal digit has its value, whichever case it is in, and no other character has one.
pub fn hexadecimal_digits_have_their_values()
    ensures digits { map hex_digit (codes "0123456789") ≡ known (0 ∷ 1 ∷ 2 ∷ 3 ∷ 4 ∷ 5 ∷ 6 ∷ 7 ∷ 8 ∷ 9 ∷ []) }
    ensures lower { map hex_digit (codes "abcdef") ≡ known (10 ∷ 11 ∷ 12 ∷ 13 ∷ 14 ∷ 15 ∷ []) }
    ensures upper { map hex_digit (codes "ABCDEF") ≡ known (10 ∷ 11 ∷ 12 ∷ 13 ∷ 14 ∷ 15 ∷ []) }
    ensures none { (c : ℕ) → IsNoHexDigit c → hex_digit c ≡ None }
{}

/// Decimal digits have no zero in front but where it stands alone; and the magnitude that no whole number passes is 2^127.
pub fn decimal_digits_have_no_zero_in_front()
    ensures zero { is_decimal (codes "0") ≡ true }
    ensures some { is_decimal (codes "1905872643") ≡ true }
    ensures in_front { is_decimal (codes "007") ≡ false }
    ensures letter { is_decimal (codes "1a") ≡ false }
    ensures nothing { is_decimal [] ≡ false }
    ensures greatest { greatest ≡ 2 ^ 127 }
{}

/// A character that an escape stands for is written in one, two or three bytes (RFC 3629, 3).
pub fn escaped_characters_are_written_in_utf8()
    ensures one { (utf8_bytes 0 ≡ 0 ∷ []) × (utf8_bytes 0x24 ≡ 0x24 ∷ []) × (utf8_bytes 0x7f ≡ 0x7f ∷ []) }
    ensures two { (utf8_bytes 0x80 ≡ 0xc2 ∷ 0x80 ∷ []) × (utf8_bytes 0xe9 ≡ 0xc3 ∷ 0xa9 ∷ []) × (utf8_bytes 0x7ff ≡ 0xdf ∷ 0xbf ∷ []) }
    ensures three { (utf8_bytes 0x800 ≡ 0xe0 ∷ 0xa0 ∷ 0x80 ∷ []) × (utf8_bytes 0x20ac ≡ 0xe2 ∷ 0x82 ∷ 0xac ∷ []) × (utf8_bytes 0xffff ≡ 0xef ∷ 0xbf ∷ 0xbf ∷ []) }
{}
