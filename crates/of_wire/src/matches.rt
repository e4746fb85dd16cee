ghost use Rattle.std.specs.Prelude.{◌≡◌, ◌≢◌, ◌≤◌, ◌<◌, ◌+◌, ◌++◌, ◌^◌, ℕ, length, take, List, [], true, false, Ok, OnOk, OnErr, IfOk, IfErr, IsOk, IfSome};
ghost use Rattle.std.specs.List.{flat_map};
ghost use Rattle.of_wire.specs.Parts.{field_bytes, match_bytes};
ghost use Rattle.of_wire.specs.Spelling.{stands, first_above, placed, SpellsMatch, SpellsMatchSeen};
ghost use Rattle.of_wire.specs.Faults.{TellsFirst, From, FaultInMatch};
ghost use Rattle.net_base.specs.declared.field.Field.{Field};
ghost use Rattle.of_wire.specs.Answers.{Gives, fault_at};
ghost use Rattle.of_wire.specs.Memory.{HoldsNoField};
ghost use Rattle.of_wire.specs.Reading.{field_numbered, field_named, has_mask, payload_len, wanted_len, field_value, known_field, known_step, unknown_step, field_step, many, fields_at, sized_match_at, match_at};

use crate::fault::{PartCause, PartFault, PartRefused};
use crate::number::{number_at, put_number, put_zeros, u8_at, u16_at};
use crate::reading::{past_end, refused, take_padding, up_to_8};
use net_base::{Bytes, Field, FieldId, Fields, NoMemory, has_prerequisite};
use std::alloc::Global;

/// The class of the fields that every switch knows (OpenFlow 1.3, 7.2.3.3).
const OPENFLOW_BASIC: u128 = 0x8000;

/// The type of a match of fields.
const OXM_MATCH: u128 = 1;

/// Writes a field of a match, with its mask where that leaves a bit out (OpenFlow 1.3, 7.2.3.2).
/// After `NoMemory` a part of it may stand behind what was there.
pub fn put_field(field: &Field, out: &mut Bytes) -> Result<(), NoMemory>
    ensures ok { OnOk result (out.new ≡ out.old ++ field_bytes field.now) }
    ensures kept { OnErr result (take (length out.old) out.new ≡ out.old) }
{
    let len = field.id.byte_len();
    let head = 2 * u128::from(field.id.number());
    put_number(out, OPENFLOW_BASIC, 2)?;
    if field.mask == field.id.all_ones() {
        put_number(out, head, 1)?;
        put_number(out, len as u128, 1)?;
        put_number(out, field.value, len)?;
    } else {
        put_number(out, head + 1, 1)?;
        put_number(out, 2 * len as u128, 1)?;
        put_number(out, field.value, len)?;
        put_number(out, field.mask, len)?;
    }
    Ok(())
}

fn put_fields(fields: &[Field], out: &mut Bytes) -> Result<(), NoMemory>
    ensures ok { OnOk result (out.new ≡ out.old ++ flat_map field_bytes fields.now) }
    ensures err { OnErr result (out.new ≡ out.old) }
    ensures sure { length fields.now ≡ 0 → IsOk result }
{
    let start = out.len();
    for field in fields {
        if let Err(no_memory) = put_field(field, out) {
            out.truncate(start);
            return Err(no_memory);
        }
    }
    Ok(())
}

/// How many bytes a field takes.
#[tactic(auto, using(crate::proofs::Lengths::field_plain, crate::proofs::Lengths::field_masked, net_base::proofs::Rows::most_bytes))]
pub fn field_len(field: &Field) -> usize
    ensures exact { result ≡ length (field_bytes field.now) }
    ensures most { result ≤ 36 }
{
    let len = field.id.byte_len();
    if field.mask == field.id.all_ones() {
        4 + len
    } else {
        4 + 2 * len
    }
}

/// How many bytes a match takes, its type and length among them, without its padding.
fn match_len(fields: &[Field]) -> u128
    ensures { result ≡ 4 + length (flat_map field_bytes fields.now) }
{
    let mut total = 4;
    for field in fields {
        total += field_len(field) as u128;
    }
    total
}

// Writes a match; after `NoMemory` a part of it may stand behind what was there.
#[tactic(auto, using(crate::proofs::Lengths::match_padding))]
fn put_whole_match(fields: &[Field], out: &mut Bytes) -> Result<(), NoMemory>
    ensures ok { OnOk result (out.new ≡ out.old ++ match_bytes fields.now) }
    ensures kept { OnErr result (take (length out.old) out.new ≡ out.old) }
{
    let len = match_len(fields);
    put_number(out, OXM_MATCH, 2)?;
    put_number(out, len, 2)?;
    put_fields(fields, out)?;
    put_zeros(out, ((8 - len % 8) % 8) as usize)
}

/// Writes a match of these fields, in their order (OpenFlow 1.3, 7.2.3.1). After `NoMemory` `out` is
/// as it was.
pub fn put_match(fields: &[Field], out: &mut Bytes) -> Result<(), NoMemory>
    ensures ok { OnOk result (out.new ≡ out.old ++ match_bytes fields.now) }
    ensures err { OnErr result (out.new ≡ out.old) }
{
    let start = out.len();
    if let Err(no_memory) = put_whole_match(fields, out) {
        out.truncate(start);
        return Err(no_memory);
    }
    Ok(())
}

/// The field with a number.
fn field_numbered(number: u8) -> Option<FieldId>
    ensures { result ≡ field_numbered number }
{
    FieldId::of_number(number)
}

/// The field that a header names: one of the basic class, by its number (OpenFlow 1.3, 7.2.3.2).
#[tactic(auto, unfolding(crate::specs::Reading::field_named))]
pub fn field_named(bytes: &[u8]) -> Option<FieldId>
    requires { 4 ≤ length bytes.now }
    ensures { result ≡ field_named bytes.now }
{
    if u128::from(u16_at(bytes, 0)) == OPENFLOW_BASIC {
        field_numbered(u8_at(bytes, 2) / 2)
    } else {
        None
    }
}

/// Whether a header says that a mask follows the value.
pub fn has_mask(bytes: &[u8]) -> bool
    requires { 4 ≤ length bytes.now }
    ensures { result ≡ has_mask bytes.now }
{
    u8_at(bytes, 2) % 2 == 1
}

fn wanted_len(id: FieldId, masked: bool) -> usize
    ensures { result ≡ wanted_len id masked }
{
    if masked {
        2 * id.byte_len()
    } else {
        id.byte_len()
    }
}

/// The value behind a header, and the mask where the header says that there is one.
#[tactic(auto, unfolding(crate::specs::Reading::field_value))]
pub fn field_value(id: FieldId, bytes: &[u8]) -> Field
    requires { 4 + wanted_len id (has_mask bytes.now) ≤ length bytes.now }
    ensures { result ≡ field_value id bytes.now }
{
    let len = id.byte_len();
    let value = number_at(bytes, 4, len);
    let mask = if has_mask(bytes) {
        number_at(bytes, 4 + len, len)
    } else {
        id.all_ones()
    };
    Field { id, value, mask }
}

fn stands(id: FieldId, fields: &[Field]) -> bool
    ensures { result ≡ stands id fields.now }
{
    fields.iter().any(|f| f.id.number() == id.number())
}

fn first_above(number: u8, fields: &[Field]) -> Option<usize>
    ensures value { result ≡ first_above number fields.now }
    ensures within { IfSome result (λ i. i < length fields.now) }
{
    fields.iter().position(|g| number < g.id.number())
}

/// Puts a field into its place among fields in ascending order of their numbers.
#[tactic(auto, unfolding(crate::specs::Spelling::placed))]
fn place(field: Field, fields: &mut Fields) -> Result<(), NoMemory>
    ensures { OnOk result (fields.new ≡ placed field fields.old) }
{
    match first_above(field.id.number(), fields.as_slice()) {
        Some(at) => fields.insert(at, field),
        None => fields.push(field),
    }
}

/// A known field: its length has to be that of its value, and of its mask where it has one.
#[tactic(auto, unfolding(crate::specs::Reading::known_field))]
fn known_field(past: PartFault, id: FieldId, at: u32, bytes: &[u8]) -> Result<Field, PartRefused>
    requires head { 4 ≤ length bytes.now }
    requires small { at + length bytes.now < 2 ^ 32 }
    ensures exact { Gives (λ f. f) result (known_field past id at bytes.now) }
    ensures there { IfOk result (λ f. 4 + payload_len bytes.now ≤ length bytes.now) }
    ensures sure { IfErr result (λ e. e ≢ PartRefused.Memory) }
{
    let len = usize::from(u8_at(bytes, 3));
    if len != wanted_len(id, has_mask(bytes)) {
        return Err(refused(at + 3, PartCause::BadLength));
    }
    if bytes.len() < 4 + len {
        return Err(PartRefused::At(past));
    }
    Ok(field_value(id, bytes))
}

/// Reads a known field, which comes once, and, where that is asked, behind its prerequisites.
#[tactic(auto, unfolding(crate::specs::Reading::known_step))]
fn take_known(
    strict: bool,
    past: PartFault,
    id: FieldId,
    fields: &mut Fields,
    at: u32,
    bytes: &[u8],
) -> Result<usize, PartRefused>
    requires head { 4 ≤ length bytes.now }
    requires small { at + length bytes.now < 2 ^ 32 }
    ensures exact { Gives (λ n. (fields.new, n)) result (known_step strict past id fields.old at bytes.now) }
    ensures taken { IfOk result (λ n. (4 ≤ n) × (n ≤ length bytes.now)) }
    ensures sure { stands id fields.old ≡ true → IfErr result (λ e. e ≢ PartRefused.Memory) }
{
    if stands(id, fields.as_slice()) {
        return Err(refused(at, PartCause::Repeated));
    }
    if strict && !has_prerequisite(id, fields.as_slice()) {
        return Err(refused(at, PartCause::Prerequisite));
    }
    let field = known_field(past, id, at, bytes)?;
    place(field, fields)?;
    Ok(4 + usize::from(u8_at(bytes, 3)))
}

/// Passes over a field that isn't known, or refuses it.
#[tactic(auto, unfolding(crate::specs::Reading::unknown_step))]
fn pass_over(strict: bool, past: PartFault, at: u32, bytes: &[u8]) -> Result<usize, PartRefused>
    requires { 4 ≤ length bytes.now }
    ensures exact { (fields : List Field) → Gives (λ n. (fields, n)) result (unknown_step strict past fields at bytes.now) }
    ensures taken { IfOk result (λ n. (4 ≤ n) × (n ≤ length bytes.now)) }
    ensures sure { IfErr result (λ e. e ≢ PartRefused.Memory) }
{
    if strict {
        return Err(refused(at, PartCause::BadClass));
    }
    let len = 4 + usize::from(u8_at(bytes, 3));
    if bytes.len() < len {
        return Err(PartRefused::At(past));
    }
    Ok(len)
}

/// Reads one field more, and says how many bytes it takes.
#[tactic(auto, unfolding(crate::specs::Reading::field_step))]
fn take_field(
    strict: bool,
    past: PartFault,
    fields: &mut Fields,
    at: u32,
    bytes: &[u8],
) -> Result<usize, PartRefused>
    requires { at + length bytes.now < 2 ^ 32 }
    ensures exact { Gives (λ n. (fields.new, n)) result (field_step strict past fields.old at bytes.now) }
    ensures taken { IfOk result (λ n. (4 ≤ n) × (n ≤ length bytes.now)) }
    ensures sure { length bytes.now < 4 → IfErr result (λ e. e ≢ PartRefused.Memory) }
{
    if bytes.len() < 4 {
        return Err(PartRefused::At(past));
    }
    match field_named(bytes) {
        Some(id) => take_known(strict, past, id, fields, at, bytes),
        None => pass_over(strict, past, at, bytes),
    }
}

/// Reads fields up to the end of the bytes.
fn read_field_list(
    alloc: Global,
    strict: bool,
    past: PartFault,
    at: u32,
    bytes: &[u8],
) -> Result<Fields, PartRefused>
    requires { at + length bytes.now < 2 ^ 32 }
    ensures exact { Gives (λ f. f) result (many (field_step strict past) (length bytes.now) [] at bytes.now) }
    ensures sure { length bytes.now < 4 → IfErr result (λ e. e ≢ PartRefused.Memory) }
{
    let mut fields = Fields::new(alloc);
    let mut rest = bytes;
    let mut place = at;
    while !rest.is_empty() {
        let taken = take_field(strict, past, &mut fields, place, rest)?;
        let (_, after) = rest.split_at(taken);
        rest = after;
        place += taken as u32;
    }
    Ok(fields)
}

/// Reads the fields of a match whose length is this, in ascending order of their numbers.
#[tactic(auto, unfolding(crate::specs::Reading::fields_at))]
fn read_fields(
    alloc: Global,
    strict: bool,
    len: usize,
    at: u32,
    bytes: &[u8],
) -> Result<Fields, PartRefused>
    requires head { 4 ≤ len }
    requires there { 4 ≤ length bytes.now }
    requires small { at + length bytes.now < 2 ^ 32 }
    ensures exact { Gives (λ f. f) result (fields_at strict len at bytes.now) }
    ensures sure { len < 8 → IfErr result (λ e. e ≢ PartRefused.Memory) }
{
    let end = at + bytes.len() as u32;
    let wrong = PartFault {
        at: at + 2,
        cause: PartCause::BadLength,
    };
    let short = PartFault {
        at: end,
        cause: PartCause::Short,
    };
    let past = past_end(len, bytes.len(), wrong, short);
    let (_, behind) = bytes.split_at(4);
    let (region, _) = behind.split_at((len - 4).min(behind.len()));
    read_field_list(alloc, strict, past, at + 4, region)
}

/// Reads the rest of a match whose length is this: its fields and its padding.
#[tactic(auto, unfolding(crate::specs::Reading::sized_match_at))]
fn read_sized_match(
    alloc: Global,
    strict: bool,
    len: usize,
    at: u32,
    bytes: &[u8],
) -> Result<(Fields, usize), PartRefused>
    requires head { 4 ≤ len }
    requires most { len < 2 ^ 16 }
    requires there { 4 ≤ length bytes.now }
    requires small { at + length bytes.now < 2 ^ 32 }
    ensures exact { Gives (λ x. x) result (sized_match_at strict len at bytes.now) }
    ensures taken { IfOk result (λ x. x.1 ≤ length bytes.now) }
    ensures sure { len < 8 → IfErr result (λ e. e ≢ PartRefused.Memory) }
{
    let fields = read_fields(alloc, strict, len, at, bytes)?;
    let short = PartFault {
        at: at + bytes.len() as u32,
        cause: PartCause::Short,
    };
    let taken = take_padding(short, at, len, up_to_8(len), bytes)?;
    Ok((fields, taken))
}

/// Reads a match (OpenFlow 1.3, 7.2.3.1). Places of faults count from `at` at the first byte.
#[tactic(auto, unfolding(crate::specs::Reading::match_at))]
fn read_match(
    alloc: Global,
    strict: bool,
    at: u32,
    bytes: &[u8],
) -> Result<(Fields, usize), PartRefused>
    requires { at + length bytes.now < 2 ^ 32 }
    ensures exact { Gives (λ x. x) result (match_at strict at bytes.now) }
    ensures taken { IfOk result (λ x. x.1 ≤ length bytes.now) }
    ensures sure { HoldsNoField bytes.now → IfErr result (λ e. e ≢ PartRefused.Memory) }
{
    if bytes.len() < 4 {
        return Err(refused(at + bytes.len() as u32, PartCause::Short));
    }
    if u128::from(u16_at(bytes, 0)) != OXM_MATCH {
        return Err(refused(at, PartCause::BadClass));
    }
    let len = usize::from(u16_at(bytes, 2));
    if len < 4 {
        return Err(refused(at + 2, PartCause::BadLength));
    }
    read_sized_match(alloc, strict, len, at, bytes)
}

/// Reads the match at the front of the bytes, with its fields in ascending order of their numbers,
/// and says how many bytes it takes with its padding (OpenFlow 1.3, 7.2.3). Fields that aren't
/// known, fields that stand twice and fields without their prerequisites are refused.
pub fn get_match(alloc: Global, bytes: &[u8]) -> Result<(Fields, usize), PartRefused>
    requires { length bytes.now < 2 ^ 32 }
    ensures taken { IfOk result (λ x. x.1 ≤ length bytes.now) }
    ensures spelled { IfOk result (λ x. SpellsMatch x.0 (take x.1 bytes.now)) }
    ensures complete { (fields : List Field) (spelling rest : List ℕ) → SpellsMatch fields spelling → bytes.now ≡ spelling ++ rest
        → Gives (λ x. x) result (Ok (fields, length spelling)) }
    ensures first { TellsFirst (FaultInMatch true bytes.now) result }
    ensures sure { HoldsNoField bytes.now → IfErr result (λ e. e ≢ PartRefused.Memory) }
{
    get_match_at(alloc, 0, bytes)
}

/// Reads the match at the front of the bytes as one that a switch reports: fields that aren't
/// known are passed over, and no field needs a prerequisite.
pub fn get_match_seen(alloc: Global, bytes: &[u8]) -> Result<(Fields, usize), PartRefused>
    requires { length bytes.now < 2 ^ 32 }
    ensures taken { IfOk result (λ x. x.1 ≤ length bytes.now) }
    ensures spelled { IfOk result (λ x. SpellsMatchSeen x.0 (take x.1 bytes.now)) }
    ensures complete { (fields : List Field) (spelling rest : List ℕ) → SpellsMatchSeen fields spelling → bytes.now ≡ spelling ++ rest
        → Gives (λ x. x) result (Ok (fields, length spelling)) }
    ensures first { TellsFirst (FaultInMatch false bytes.now) result }
    ensures sure { HoldsNoField bytes.now → IfErr result (λ e. e ≢ PartRefused.Memory) }
{
    get_match_seen_at(alloc, 0, bytes)
}

/// `get_match` for a match inside a message: the places of faults count from the message's first
/// byte, and the first byte given here stands at `at`.
pub fn get_match_at(alloc: Global, at: u32, bytes: &[u8]) -> Result<(Fields, usize), PartRefused>
    requires { at + length bytes.now < 2 ^ 32 }
    ensures exact { Gives (λ x. x) result (match_at true at bytes.now) }
    ensures taken { IfOk result (λ x. x.1 ≤ length bytes.now) }
    ensures spelled { IfOk result (λ x. SpellsMatch x.0 (take x.1 bytes.now)) }
    ensures complete { (fields : List Field) (spelling rest : List ℕ) → SpellsMatch fields spelling → bytes.now ≡ spelling ++ rest
        → Gives (λ x. x) result (Ok (fields, length spelling)) }
    ensures first { TellsFirst (From at (FaultInMatch true bytes.now)) result }
    ensures sure { HoldsNoField bytes.now → IfErr result (λ e. e ≢ PartRefused.Memory) }
{
    read_match(alloc, true, at, bytes)
}

/// `get_match_seen` for a match inside a message.
pub fn get_match_seen_at(
    alloc: Global,
    at: u32,
    bytes: &[u8],
) -> Result<(Fields, usize), PartRefused>
    requires { at + length bytes.now < 2 ^ 32 }
    ensures exact { Gives (λ x. x) result (match_at false at bytes.now) }
    ensures taken { IfOk result (λ x. x.1 ≤ length bytes.now) }
    ensures spelled { IfOk result (λ x. SpellsMatchSeen x.0 (take x.1 bytes.now)) }
    ensures complete { (fields : List Field) (spelling rest : List ℕ) → SpellsMatchSeen fields spelling → bytes.now ≡ spelling ++ rest
        → Gives (λ x. x) result (Ok (fields, length spelling)) }
    ensures first { TellsFirst (From at (FaultInMatch false bytes.now)) result }
    ensures sure { HoldsNoField bytes.now → IfErr result (λ e. e ≢ PartRefused.Memory) }
{
    read_match(alloc, false, at, bytes)
}
