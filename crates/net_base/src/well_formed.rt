ghost use Rattle.std.specs.Prelude.{◌≡◌, ◌<◌, ◌↔◌, IsTrue};
ghost use Rattle.std.specs.List.{AllByRecursion, list_all, list_any};
ghost use Rattle.net_base.specs.WellFormed.{is_whole, meets, is_met, has_prerequisite, Fits, AreAscending, IsWellFormed};
ghost use Rattle.net_base.specs.FieldId.{number_of};

use crate::field::{Field, FieldId, Prerequisite};

// Whether it is the field with this name, and no bit of it is masked out.
fn is_whole(id: FieldId, field: &Field) -> bool
    ensures { result ≡ is_whole id field.now }
{
    field.id.number() == id.number() && field.mask == id.all_ones()
}

// Whether a field is the one that is asked for.
fn meets(asked: Prerequisite, field: &Field) -> bool
    ensures { result ≡ meets asked field.now }
{
    match asked {
        Prerequisite::Tagged => {
            field.id.number() == FieldId::VlanVid.number() && field.value != 0
        }
        Prerequisite::Exactly { id, value } => is_whole(id, field) && field.value == value,
        Prerequisite::Either { id, value, other } => {
            is_whole(id, field) && (field.value == value || field.value == other)
        }
    }
}

// Whether some field is the one that is asked for.
fn is_met(fields: &[Field], asked: Prerequisite) -> bool
    ensures { result ≡ is_met fields.now asked }
{
    fields.iter().any(|field| meets(asked, field))
}

/// Whether a match has each of those that a field asks for.
pub fn has_prerequisite(id: FieldId, fields: &[Field]) -> bool
    ensures { result ≡ has_prerequisite id fields.now }
{
    id.prerequisites()
        .iter()
        .all(|asked| is_met(fields, *asked))
}

// Whether value and mask have no more bytes than the field.
fn fits(field: &Field) -> bool
    ensures { IsTrue result ↔ Fits field.now }
{
    field.value <= field.id.all_ones() && field.mask <= field.id.all_ones()
}

// Whether a field's number is below those of others.
fn is_before(field: &Field, others: &[Field]) -> bool
    ensures { IsTrue result ↔ AllByRecursion (λ other. number_of field.now.id < number_of other.id) others.now }
{
    match others {
        [] => true,
        [other, more @ ..] => field.id.number() < other.id.number() && is_before(field, more),
    }
}

// Whether the fields ascend by number.
fn are_ascending(fields: &[Field]) -> bool
    ensures { IsTrue result ↔ AreAscending fields.now }
{
    match fields {
        [] => true,
        [field, more @ ..] => is_before(field, more) && are_ascending(more),
    }
}

// Whether each field's value and mask fit.
fn all_fit(fields: &[Field]) -> bool
    ensures { IsTrue result ↔ AllByRecursion Fits fields.now }
{
    match fields {
        [] => true,
        [field, more @ ..] => fits(field) && all_fit(more),
    }
}

// Whether the match has what each of some fields asks for.
fn all_met(some: &[Field], fields: &[Field]) -> bool
    ensures { IsTrue result ↔ AllByRecursion (λ f. IsTrue (has_prerequisite f.id fields.now)) some.now }
{
    match some {
        [] => true,
        [field, more @ ..] => has_prerequisite(field.id, fields) && all_met(more, fields),
    }
}

/// Whether a match is well formed: its fields ascend by number, each value and mask fits, and
/// each field has what it asks for.
pub fn is_well_formed(fields: &[Field]) -> bool
    ensures { IsTrue result ↔ IsWellFormed fields.now }
{
    are_ascending(fields) && all_fit(fields) && all_met(fields, fields)
}
