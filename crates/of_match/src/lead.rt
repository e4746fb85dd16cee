//! What is kept beside a match, so that most matches are told apart without their fields.

ghost use Rattle.std.specs.Prelude.{◌≡◌};
ghost use Rattle.of_match.specs.MatchOrder.{match_len};
ghost use Rattle.of_match.specs.MatchLead.{kind_of, is_told, first_kind, first_value, behind_first, lead_of, lead_cmp};

use crate::order::is_masked;
use net_base::Field;
use std::cmp::Ordering;

// Lengths are told below this one.
const LONG: u128 = 0xffff;

// Values are told below this one.
const LARGE: u128 = 0xffff_ffff_ffff_ffff;

/// A match's length up to `LONG`, and kind and value of its first two fields, as far as each is told whole.
#[derive(Clone, Copy, Debug)]
pub(crate) struct Lead {
    len: u16,
    first_kind: u8,
    second_kind: u8,
    first_value: u64,
    second_value: u64,
}

impl Lead {
    /// The lead of the match of these fields, of `len` bytes.
    #[tactic(auto, unfolding(crate::specs::MatchLead::lead_of))]
    pub(crate) fn new(fields: &[Field], len: u128) -> Lead
        requires { len ≡ match_len fields.now }
        ensures { result ≡ lead_of fields.now }
    {
        let told = if len < LONG { fields } else { &[] };
        let behind = behind_first(told);
        Lead {
            len: if len < LONG { len as u16 } else { LONG as u16 },
            first_kind: first_kind(told),
            second_kind: first_kind(behind),
            first_value: first_value(told),
            second_value: first_value(behind),
        }
    }

    /// By length, then by the first field, then by the second.
    #[tactic(auto, unfolding(crate::specs::MatchLead::lead_cmp))]
    pub(crate) fn compare(&self, other: &Lead) -> Ordering
        ensures { result ≡ lead_cmp self.now other.now }
    {
        self.len
            .cmp(&other.len)
            .then(self.first_kind.cmp(&other.first_kind))
            .then(self.first_value.cmp(&other.first_value))
            .then(self.second_kind.cmp(&other.second_kind))
            .then(self.second_value.cmp(&other.second_value))
    }
}

// A field's number, and whether it goes with a mask, as one number above 0.
#[tactic(auto, using(net_base::proofs::Rows::low_number))]
fn kind_of(field: &Field) -> u8
    ensures { result ≡ kind_of field.now }
{
    if is_masked(field) {
        2 * field.id.number() + 2
    } else {
        2 * field.id.number() + 1
    }
}

// Whether the kind and the value up to `LARGE` tell all of the field.
fn is_told(field: &Field) -> bool
    ensures { result ≡ is_told field.now }
{
    !is_masked(field) && field.value < LARGE
}

// The kind of the first field, 0 of none.
fn first_kind(fields: &[Field]) -> u8
    ensures { result ≡ first_kind fields.now }
{
    match fields {
        [] => 0,
        [first, ..] => kind_of(first),
    }
}

// The value of the first field up to `LARGE`, 0 of none.
fn first_value(fields: &[Field]) -> u64
    ensures { result ≡ first_value fields.now }
{
    match fields {
        [] => 0,
        [first, ..] if first.value < LARGE => first.value as u64,
        _ => u64::MAX,
    }
}

// The fields behind the first, none where that one isn't told whole.
fn behind_first(fields: &[Field]) -> &[Field]
    ensures { result.now ≡ behind_first fields.now }
{
    match fields {
        [first, rest @ ..] if is_told(first) => rest,
        _ => &[],
    }
}
