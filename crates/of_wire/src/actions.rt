ghost use Rattle.std.specs.Prelude.{◌≡◌, ◌≢◌, ◌≤◌, ◌<◌, ◌+◌, ◌*◌, ◌++◌, ◌^◌, length, take, drop, List, Ok, OnOk, OnErr, IfOk, IfErr, IsOk};
ghost use Rattle.std.specs.List.{flat_map};
ghost use Rattle.of_wire.specs.Parts.{bare_action, set_bytes, action_bytes};
ghost use Rattle.of_match.specs.declared.action.Action.{Action};
ghost use Rattle.of_wire.specs.Spelling.{SpellsActions};
ghost use Rattle.of_wire.specs.Faults.{TellsFirst, FaultInActions, FaultInActionsAt};
ghost use Rattle.of_wire.specs.Answers.{Gives, fault_at};
ghost use Rattle.of_wire.specs.Reading.{payload_len, set_named, set_at, sized_at, action_of, action_at, action_step, actions_at};

use crate::fault::{PartCause, PartFault, PartRefused};
use crate::matches::{field_len, field_named, field_value, has_mask, put_field};
use crate::number::{put_number, put_zeros, u8_at, u16_at, u32_at};
use crate::reading::{refused, take_padding, up_to_8};
use net_base::{Bytes, Field, FieldId, NoMemory};
use of_match::{Action, Actions};
use std::alloc::Global;

// The types of actions (OpenFlow 1.3, 7.2.5).
const OUTPUT: u128 = 0;

const PUSH_VLAN: u128 = 17;

const POP_VLAN: u128 = 18;

const DEC_NW_TTL: u128 = 24;

const SET_FIELD: u128 = 25;

// The next three write an action; after `NoMemory` a part of it may stand behind what was there.

/// Writes an action that has nothing but its type.
fn put_bare_action(kind: u128, out: &mut Bytes) -> Result<(), NoMemory>
    ensures ok { OnOk result (out.new ≡ out.old ++ bare_action kind) }
    ensures kept { OnErr result (take (length out.old) out.new ≡ out.old) }
{
    put_number(out, kind, 2)?;
    put_number(out, 8, 2)?;
    put_zeros(out, 4)
}

/// Writes the action that sets a field. Its length counts the padding.
#[tactic(auto, using(crate::proofs::Lengths::set_padding))]
fn put_set_field(field: &Field, out: &mut Bytes) -> Result<(), NoMemory>
    ensures ok { OnOk result (out.new ≡ out.old ++ set_bytes field.now) }
    ensures kept { OnErr result (take (length out.old) out.new ≡ out.old) }
{
    let len = 4 + field_len(field);
    let padding = (8 - len % 8) % 8;
    put_number(out, SET_FIELD, 2)?;
    put_number(out, (len + padding) as u128, 2)?;
    put_field(field, out)?;
    put_zeros(out, padding)
}

/// Writes an action (OpenFlow 1.3, 7.2.5).
fn put_action(action: &Action, out: &mut Bytes) -> Result<(), NoMemory>
    ensures ok { OnOk result (out.new ≡ out.old ++ action_bytes action.now) }
    ensures kept { OnErr result (take (length out.old) out.new ≡ out.old) }
{
    match action {
        Action::Output { port, max_len } => {
            put_number(out, OUTPUT, 2)?;
            put_number(out, 16, 2)?;
            put_number(out, u128::from(*port), 4)?;
            put_number(out, u128::from(*max_len), 2)?;
            put_zeros(out, 6)
        }
        Action::PushVlan(eth_type) => {
            put_number(out, PUSH_VLAN, 2)?;
            put_number(out, 8, 2)?;
            put_number(out, u128::from(*eth_type), 2)?;
            put_zeros(out, 2)
        }
        Action::PopVlan => put_bare_action(POP_VLAN, out),
        Action::DecTtl => put_bare_action(DEC_NW_TTL, out),
        Action::Set(field) => put_set_field(field, out),
    }
}

/// Writes actions, one behind the other, in their order. After `NoMemory` `out` is as it was.
pub fn put_actions(actions: &[Action], out: &mut Bytes) -> Result<(), NoMemory>
    ensures ok { OnOk result (out.new ≡ out.old ++ flat_map action_bytes actions.now) }
    ensures err { OnErr result (out.new ≡ out.old) }
    ensures sure { length actions.now ≡ 0 → IsOk result }
{
    let start = out.len();
    for action in actions {
        if let Err(no_memory) = put_action(action, out) {
            out.truncate(start);
            return Err(no_memory);
        }
    }
    Ok(())
}

/// How many bytes an action takes.
#[tactic(auto, using(crate::proofs::Lengths::output_length, crate::proofs::Lengths::push_length, crate::proofs::Lengths::bare_length, crate::proofs::Lengths::set_length))]
fn action_len(action: &Action) -> usize
    ensures exact { result ≡ length (action_bytes action.now) }
    ensures most { result ≤ 40 }
{
    match action {
        Action::Output { .. } => 16,
        Action::PushVlan(_) | Action::PopVlan | Action::DecTtl => 8,
        Action::Set(field) => { up_to_8(4 + field_len(field)) }
    }
}

/// How many bytes actions take.
pub fn actions_len(actions: &[Action]) -> u128
    ensures exact { result ≡ length (flat_map action_bytes actions.now) }
    ensures most { result ≤ 40 * length actions.now }
{
    let mut total = 0;
    for action in actions {
        total += action_len(action) as u128;
    }
    total
}

/// Reads the field of a SET_FIELD whose length is that of a field without a mask.
#[tactic(auto, unfolding(crate::specs::Reading::set_named))]
fn read_set_named(
    named: Option<FieldId>,
    past: PartFault,
    len: usize,
    at: u32,
    bytes: &[u8],
) -> Result<(Action, usize), PartRefused>
    requires head { 8 ≤ length bytes.now }
    requires most { len < 2 ^ 16 }
    requires least { 8 + payload_len (drop 4 bytes.now) ≤ len }
    requires small { at + length bytes.now < 2 ^ 32 }
    ensures exact { Gives (λ x. x) result (set_named named past len at bytes.now) }
    ensures taken { IfOk result (λ x. (4 ≤ x.1) × (x.1 ≤ length bytes.now)) }
    ensures sure { IfErr result (λ e. e ≢ PartRefused.Memory) }
{
    let Some(id) = named else {
        return Err(refused(at + 4, PartCause::BadClass));
    };
    let (_, field) = bytes.split_at(4);
    let field_len = id.byte_len();
    if has_mask(field) || usize::from(u8_at(field, 3)) != field_len {
        return Err(refused(at + 7, PartCause::BadLength));
    }
    let taken = take_padding(past, at, 8 + field_len, len, bytes)?;
    Ok((Action::Set(field_value(id, field)), taken))
}

/// Reads a SET_FIELD, whose length has to be that of its field with the padding.
#[tactic(auto, unfolding(crate::specs::Reading::set_at))]
fn read_set(
    past: PartFault,
    len: usize,
    at: u32,
    bytes: &[u8],
) -> Result<(Action, usize), PartRefused>
    requires head { 4 ≤ length bytes.now }
    requires most { len < 2 ^ 16 }
    requires small { at + length bytes.now < 2 ^ 32 }
    ensures exact { Gives (λ x. x) result (set_at past len at bytes.now) }
    ensures taken { IfOk result (λ x. (4 ≤ x.1) × (x.1 ≤ length bytes.now)) }
    ensures sure { IfErr result (λ e. e ≢ PartRefused.Memory) }
{
    if len < 8 {
        return Err(refused(at + 2, PartCause::BadLength));
    }
    if bytes.len() < 8 {
        return Err(PartRefused::At(past));
    }
    let (_, field) = bytes.split_at(4);
    let wanted = 8 + usize::from(u8_at(field, 3));
    if len != up_to_8(wanted) {
        return Err(refused(at + 2, PartCause::BadLength));
    }
    read_set_named(field_named(field), past, len, at, bytes)
}

/// A length that is fixed: it has to be this one, and its bytes have to be there.
#[tactic(auto, unfolding(crate::specs::Reading::sized_at))]
pub(crate) fn take_sized(
    past: PartFault,
    size: usize,
    len: usize,
    at: u32,
    bytes: &[u8],
) -> Result<usize, PartRefused>
    requires head { 4 ≤ length bytes.now }
    requires least { 4 ≤ size }
    requires small { at + length bytes.now < 2 ^ 32 }
    ensures exact { Gives (λ n. n) result (sized_at past size len at bytes.now) }
    ensures taken { IfOk result (λ n. (n ≡ size) × (n ≤ length bytes.now)) }
    ensures sure { IfErr result (λ e. e ≢ PartRefused.Memory) }
{
    if len != size {
        return Err(refused(at + 2, PartCause::BadLength));
    }
    if bytes.len() < size {
        return Err(PartRefused::At(past));
    }
    Ok(size)
}

/// Reads an action of a type. But for SET_FIELD each type has a fixed length.
#[tactic(auto, unfolding(crate::specs::Reading::action_of, crate::specs::Reading::output_at, crate::specs::Reading::push_at, crate::specs::Reading::bare_at))]
fn read_action_of(
    kind: u16,
    past: PartFault,
    len: usize,
    at: u32,
    bytes: &[u8],
) -> Result<(Action, usize), PartRefused>
    requires head { 4 ≤ length bytes.now }
    requires most { len < 2 ^ 16 }
    requires small { at + length bytes.now < 2 ^ 32 }
    ensures exact { Gives (λ x. x) result (action_of kind past len at bytes.now) }
    ensures taken { IfOk result (λ x. (4 ≤ x.1) × (x.1 ≤ length bytes.now)) }
    ensures sure { IfErr result (λ e. e ≢ PartRefused.Memory) }
{
    match u128::from(kind) {
        OUTPUT => {
            let taken = take_sized(past, 16, len, at, bytes)?;
            let port = u32_at(bytes, 4);
            let max_len = u16_at(bytes, 8);
            Ok((Action::Output { port, max_len }, taken))
        }
        PUSH_VLAN => {
            let taken = take_sized(past, 8, len, at, bytes)?;
            Ok((Action::PushVlan(u16_at(bytes, 4)), taken))
        }
        POP_VLAN => Ok((Action::PopVlan, take_sized(past, 8, len, at, bytes)?)),
        DEC_NW_TTL => Ok((Action::DecTtl, take_sized(past, 8, len, at, bytes)?)),
        SET_FIELD => read_set(past, len, at, bytes),
        _ => Err(refused(at, PartCause::UnknownAction)),
    }
}

/// Reads an action (OpenFlow 1.3, 7.2.5), and says how many bytes it takes.
#[tactic(auto, unfolding(crate::specs::Reading::action_at))]
fn read_action(past: PartFault, at: u32, bytes: &[u8]) -> Result<(Action, usize), PartRefused>
    requires { at + length bytes.now < 2 ^ 32 }
    ensures exact { Gives (λ x. x) result (action_at past at bytes.now) }
    ensures taken { IfOk result (λ x. (4 ≤ x.1) × (x.1 ≤ length bytes.now)) }
    ensures sure { IfErr result (λ e. e ≢ PartRefused.Memory) }
{
    if bytes.len() < 4 {
        return Err(PartRefused::At(past));
    }
    let len = usize::from(u16_at(bytes, 2));
    read_action_of(u16_at(bytes, 0), past, len, at, bytes)
}

/// Reads one action more, and says how many bytes it takes.
#[tactic(auto, unfolding(crate::specs::Reading::action_step))]
fn take_action(
    past: PartFault,
    actions: &mut Actions,
    at: u32,
    bytes: &[u8],
) -> Result<usize, PartRefused>
    requires { at + length bytes.now < 2 ^ 32 }
    ensures exact { Gives (λ n. (actions.new, n)) result (action_step past actions.old at bytes.now) }
    ensures taken { IfOk result (λ n. (4 ≤ n) × (n ≤ length bytes.now)) }
    ensures sure { length bytes.now < 4 → IfErr result (λ e. e ≢ PartRefused.Memory) }
{
    let (action, taken) = read_action(past, at, bytes)?;
    actions.push(action)?;
    Ok(taken)
}

/// Reads one action behind the other, up to the end of the bytes.
#[tactic(auto, unfolding(crate::specs::Reading::actions_at))]
pub fn read_each_action(
    alloc: Global,
    past: PartFault,
    at: u32,
    bytes: &[u8],
) -> Result<Actions, PartRefused>
    requires { at + length bytes.now < 2 ^ 32 }
    ensures exact { Gives (λ a. a) result (actions_at past at bytes.now) }
    ensures sure { length bytes.now < 4 → IfErr result (λ e. e ≢ PartRefused.Memory) }
{
    let mut actions = Actions::new(alloc);
    let mut rest = bytes;
    let mut place = at;
    while !rest.is_empty() {
        let taken = take_action(past, &mut actions, place, rest)?;
        let (_, after) = rest.split_at(taken);
        rest = after;
        place += taken as u32;
    }
    Ok(actions)
}

/// Reads actions up to the end of the bytes, the first of which stands at `at`. What runs past that
/// end is refused as `past` says.
pub fn read_actions(
    alloc: Global,
    past: PartFault,
    at: u32,
    bytes: &[u8],
) -> Result<Actions, PartRefused>
    requires { at + length bytes.now < 2 ^ 32 }
    ensures exact { Gives (λ a. a) result (actions_at past at bytes.now) }
    ensures spelled { IfOk result (λ actions. SpellsActions actions bytes.now) }
    ensures complete { (actions : List Action) → SpellsActions actions bytes.now → Gives (λ a. a) result (Ok actions) }
    ensures first { TellsFirst (FaultInActionsAt at past bytes.now) result }
    ensures sure { length bytes.now < 4 → IfErr result (λ e. e ≢ PartRefused.Memory) }
{
    read_each_action(alloc, past, at, bytes)
}

/// Reads the actions that all of the bytes spell (OpenFlow 1.3, 7.2.5).
pub fn get_actions(alloc: Global, bytes: &[u8]) -> Result<Actions, PartRefused>
    requires { length bytes.now < 2 ^ 32 }
    ensures spelled { IfOk result (λ actions. SpellsActions actions bytes.now) }
    ensures complete { (actions : List Action) → SpellsActions actions bytes.now → Gives (λ a. a) result (Ok actions) }
    ensures first { TellsFirst (FaultInActions bytes.now) result }
    ensures sure { length bytes.now < 4 → IfErr result (λ e. e ≢ PartRefused.Memory) }
{
    let past = PartFault {
        at: bytes.len() as u32,
        cause: PartCause::Short,
    };
    read_each_action(alloc, past, 0, bytes)
}
