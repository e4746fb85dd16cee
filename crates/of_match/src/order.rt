ghost use Rattle.std.specs.Prelude.{◌≡◌, ◌≤◌};
ghost use Rattle.std.specs.Cmp.Lexicographic.{slice_cmp};
ghost use Rattle.of_match.specs.MatchOrder.{is_masked, field_len, match_len, field_cmp};

use net_base::Field;
use std::cmp::Ordering;

/// Whether the field goes with a mask, since it leaves some bit of the value out.
pub fn is_masked(field: &Field) -> bool
    ensures { result ≡ is_masked field.now }
{
    field.mask != field.id.all_ones()
}

// How many bytes a field takes in a match.
#[tactic(auto, using(net_base::proofs::Rows::most_bytes))]
fn field_len(field: &Field) -> usize
    ensures exact { result ≡ field_len field.now }
    ensures small { result ≤ 36 }
{
    if is_masked(field) {
        4 + 2 * field.id.byte_len()
    } else {
        4 + field.id.byte_len()
    }
}

// How many bytes a match takes on the wire, its type and length among them, without its padding
// (OpenFlow 1.3, 7.2.3.1).
pub(crate) fn match_len(fields: &[Field]) -> u128
    ensures { result ≡ match_len fields.now }
{
    let mut total: u128 = 4;
    for field in fields {
        total += field_len(field) as u128;
    }
    total
}

// Two fields by number, mask flag, value and mask. Most are of one kind and differ in the value alone.
fn compare_field(a: &Field, b: &Field) -> Ordering
    ensures { result ≡ field_cmp a.now b.now }
{
    if a.id == b.id && a.mask == b.mask {
        return a.value.cmp(&b.value);
    }
    match a.id.number().cmp(&b.id.number()) {
        Ordering::Equal => is_masked(a)
            .cmp(&is_masked(b))
            .then(a.value.cmp(&b.value))
            .then(a.mask.cmp(&b.mask)),
        unequal => unequal,
    }
}

// Field by field; where one ends before the other, it is first.
pub(crate) fn compare_each(a: &[Field], b: &[Field]) -> Ordering
    ensures { result ≡ slice_cmp field_cmp a.now b.now }
{
    match a {
        [] if b.is_empty() => Ordering::Equal,
        [] => Ordering::Less,
        [x, xs @ ..] => match b {
            [] => Ordering::Greater,
            [y, ys @ ..] => match compare_field(x, y) {
                Ordering::Equal => compare_each(xs, ys),
                unequal => unequal,
            },
        },
    }
}
