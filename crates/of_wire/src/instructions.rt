ghost use Rattle.std.specs.Prelude.{◌≡◌, ◌≢◌, ◌≤◌, ◌<◌, ◌+◌, ◌++◌, ◌^◌, length, take, List, Ok, OnOk, OnErr, IfOk, IfErr, IsOk};
ghost use Rattle.std.specs.List.{flat_map};
ghost use Rattle.of_wire.specs.Parts.{instr_bytes};
ghost use Rattle.of_wire.specs.Numbers.{number_in};
ghost use Rattle.of_match.specs.declared.action.Instr.{Instr};
ghost use Rattle.of_wire.specs.Spelling.{is_goto, has_goto, is_apply, has_apply, SpellsInstrs};
ghost use Rattle.of_wire.specs.Answers.{Gives};
ghost use Rattle.of_wire.specs.Reading.{applied_at, apply_at, instr_of, instr_at, instr_step, instrs_at};
ghost use Rattle.of_wire.specs.Faults.{TellsFirst, From, FaultInInstrs};

use crate::actions::{actions_len, put_actions, read_each_action, take_sized};
use crate::fault::{PartCause, PartFault, PartRefused};
use crate::number::{put_number, put_zeros, u8_at, u16_at};
use crate::reading::{past_end, refused};
use net_base::{Bytes, NoMemory};
use of_match::{Instr, Instrs};
use std::alloc::Global;

// The types of instructions (OpenFlow 1.3, 7.2.4).
const GOTO_TABLE: u128 = 1;

const APPLY_ACTIONS: u128 = 4;

/// Writes an instruction (OpenFlow 1.3, 7.2.4). After `NoMemory` a part of it may stand behind what
/// was there.
fn put_instr(instr: &Instr, out: &mut Bytes) -> Result<(), NoMemory>
    ensures ok { OnOk result (out.new ≡ out.old ++ instr_bytes instr.now) }
    ensures kept { OnErr result (take (length out.old) out.new ≡ out.old) }
{
    match instr {
        Instr::Goto(table) => {
            put_number(out, GOTO_TABLE, 2)?;
            put_number(out, 8, 2)?;
            put_number(out, u128::from(*table), 1)?;
            put_zeros(out, 3)
        }
        Instr::Apply(actions) => {
            put_number(out, APPLY_ACTIONS, 2)?;
            put_number(out, 8 + actions_len(actions.as_slice()), 2)?;
            put_zeros(out, 4)?;
            put_actions(actions.as_slice(), out)
        }
    }
}

/// Writes instructions, one behind the other, in their order. After `NoMemory` `out` is as it was.
pub fn put_instrs(instrs: &[Instr], out: &mut Bytes) -> Result<(), NoMemory>
    ensures ok { OnOk result (out.new ≡ out.old ++ flat_map instr_bytes instrs.now) }
    ensures err { OnErr result (out.new ≡ out.old) }
    ensures sure { length instrs.now ≡ 0 → IsOk result }
{
    let start = out.len();
    for instr in instrs {
        if let Err(no_memory) = put_instr(instr, out) {
            out.truncate(start);
            return Err(no_memory);
        }
    }
    Ok(())
}

fn is_goto(instr: &Instr) -> bool
    ensures { result ≡ is_goto instr.now }
{
    match instr {
        Instr::Goto(_) => true,
        Instr::Apply(_) => false,
    }
}

fn has_goto(instrs: &[Instr]) -> bool
    ensures { result ≡ has_goto instrs.now }
{
    instrs.iter().any(|i| is_goto(i))
}

fn is_apply(instr: &Instr) -> bool
    ensures { result ≡ is_apply instr.now }
{
    match instr {
        Instr::Goto(_) => false,
        Instr::Apply(_) => true,
    }
}

fn has_apply(instrs: &[Instr]) -> bool
    ensures { result ≡ has_apply instrs.now }
{
    instrs.iter().any(|i| is_apply(i))
}

/// Reads the actions of an APPLY_ACTIONS whose length this is.
#[tactic(auto, unfolding(crate::specs::Reading::applied_at))]
fn read_applied(
    alloc: Global,
    past: PartFault,
    len: usize,
    at: u32,
    bytes: &[u8],
) -> Result<(Instr, usize), PartRefused>
    requires head { 8 ≤ length bytes.now }
    requires least { 8 ≤ len }
    requires small { at + length bytes.now < 2 ^ 32 }
    ensures exact { Gives (λ x. x) result (applied_at past len at bytes.now) }
    ensures taken { IfOk result (λ x. (4 ≤ x.1) × (x.1 ≤ length bytes.now)) }
    ensures sure { len < 12 → IfErr result (λ e. e ≢ PartRefused.Memory) }
{
    let wrong = PartFault {
        at: at + 2,
        cause: PartCause::BadLength,
    };
    let inner_past = past_end(len, bytes.len(), wrong, past);
    let (_, behind) = bytes.split_at(8);
    let (region, _) = behind.split_at((len - 8).min(behind.len()));
    let actions = read_each_action(alloc, inner_past, at + 8, region)?;
    if bytes.len() < len {
        return Err(PartRefused::At(past));
    }
    Ok((Instr::Apply(actions), len))
}

/// Reads an APPLY_ACTIONS, which comes once, first, and with an action.
#[tactic(auto, unfolding(crate::specs::Reading::apply_at))]
fn read_apply(
    alloc: Global,
    past: PartFault,
    instrs: &[Instr],
    len: usize,
    at: u32,
    bytes: &[u8],
) -> Result<(Instr, usize), PartRefused>
    requires head { 4 ≤ length bytes.now }
    requires small { at + length bytes.now < 2 ^ 32 }
    ensures exact { Gives (λ x. x) result (apply_at past instrs.now len at bytes.now) }
    ensures taken { IfOk result (λ x. (4 ≤ x.1) × (x.1 ≤ length bytes.now)) }
    ensures sure { len < 12 → IfErr result (λ e. e ≢ PartRefused.Memory) }
{
    if has_apply(instrs) {
        return Err(refused(at, PartCause::Repeated));
    }
    if has_goto(instrs) {
        return Err(refused(at, PartCause::UnknownInstr));
    }
    if len <= 8 {
        return Err(refused(at + 2, PartCause::BadLength));
    }
    if bytes.len() < 8 {
        return Err(PartRefused::At(past));
    }
    read_applied(alloc, past, len, at, bytes)
}

/// Reads an instruction of a type. A GOTO_TABLE comes once.
#[tactic(auto, unfolding(crate::specs::Reading::instr_of, crate::specs::Reading::goto_at, crate::specs::Reading::sized_at))]
fn read_instr_of(
    alloc: Global,
    kind: u16,
    past: PartFault,
    instrs: &[Instr],
    at: u32,
    bytes: &[u8],
) -> Result<(Instr, usize), PartRefused>
    requires head { 4 ≤ length bytes.now }
    requires small { at + length bytes.now < 2 ^ 32 }
    ensures exact { Gives (λ x. x) result (instr_of kind past instrs.now (number_in 2 2 bytes.now) at bytes.now) }
    ensures taken { IfOk result (λ x. (4 ≤ x.1) × (x.1 ≤ length bytes.now)) }
    ensures sure { number_in 2 2 bytes.now < 12 → IfErr result (λ e. e ≢ PartRefused.Memory) }
{
    let len = usize::from(u16_at(bytes, 2));
    match u128::from(kind) {
        GOTO_TABLE => {
            if has_goto(instrs) {
                return Err(refused(at, PartCause::Repeated));
            }
            let taken = take_sized(past, 8, len, at, bytes)?;
            Ok((Instr::Goto(u8_at(bytes, 4)), taken))
        }
        APPLY_ACTIONS => read_apply(alloc, past, instrs, len, at, bytes),
        _ => Err(refused(at, PartCause::UnknownInstr)),
    }
}

/// Reads one instruction more, and says how many bytes it takes.
#[tactic(auto, unfolding(crate::specs::Reading::instr_step, crate::specs::Reading::instr_at))]
fn take_instr(
    alloc: Global,
    past: PartFault,
    instrs: &mut Instrs,
    at: u32,
    bytes: &[u8],
) -> Result<usize, PartRefused>
    requires { at + length bytes.now < 2 ^ 32 }
    ensures exact { Gives (λ n. (instrs.new, n)) result (instr_step past instrs.old at bytes.now) }
    ensures taken { IfOk result (λ n. (4 ≤ n) × (n ≤ length bytes.now)) }
    ensures sure { length bytes.now < 4 → IfErr result (λ e. e ≢ PartRefused.Memory) }
{
    if bytes.len() < 4 {
        return Err(PartRefused::At(past));
    }
    let kind = u16_at(bytes, 0);
    let (instr, taken) = read_instr_of(alloc, kind, past, instrs.as_slice(), at, bytes)?;
    instrs.push(instr)?;
    Ok(taken)
}

/// Reads one instruction behind the other, up to the end of the bytes.
#[tactic(auto, unfolding(crate::specs::Reading::instrs_at))]
fn read_each_instr(alloc: Global, at: u32, bytes: &[u8]) -> Result<Instrs, PartRefused>
    requires { at + length bytes.now < 2 ^ 32 }
    ensures exact { Gives (λ i. i) result (instrs_at at bytes.now) }
    ensures sure { length bytes.now < 4 → IfErr result (λ e. e ≢ PartRefused.Memory) }
{
    let past = PartFault {
        at: at + bytes.len() as u32,
        cause: PartCause::Short,
    };
    let mut instrs = Instrs::new(alloc);
    let mut rest = bytes;
    let mut place = at;
    while !rest.is_empty() {
        let taken = take_instr(alloc, past, &mut instrs, place, rest)?;
        let (_, after) = rest.split_at(taken);
        rest = after;
        place += taken as u32;
    }
    Ok(instrs)
}

/// `get_instrs` for instructions inside a message: the places of faults count from the message's
/// first byte, and the first byte given here stands at `at`.
pub fn get_instrs_at(alloc: Global, at: u32, bytes: &[u8]) -> Result<Instrs, PartRefused>
    requires { at + length bytes.now < 2 ^ 32 }
    ensures exact { Gives (λ i. i) result (instrs_at at bytes.now) }
    ensures spelled { IfOk result (λ instrs. SpellsInstrs instrs bytes.now) }
    ensures complete { (instrs : List Instr) → SpellsInstrs instrs bytes.now → Gives (λ i. i) result (Ok instrs) }
    ensures first { TellsFirst (From at (FaultInInstrs bytes.now)) result }
    ensures sure { length bytes.now < 4 → IfErr result (λ e. e ≢ PartRefused.Memory) }
{
    read_each_instr(alloc, at, bytes)
}

/// Reads the instructions that all of the bytes spell (OpenFlow 1.3, 7.2.4).
pub fn get_instrs(alloc: Global, bytes: &[u8]) -> Result<Instrs, PartRefused>
    requires { length bytes.now < 2 ^ 32 }
    ensures spelled { IfOk result (λ instrs. SpellsInstrs instrs bytes.now) }
    ensures complete { (instrs : List Instr) → SpellsInstrs instrs bytes.now → Gives (λ i. i) result (Ok instrs) }
    ensures first { TellsFirst (FaultInInstrs bytes.now) result }
    ensures sure { length bytes.now < 4 → IfErr result (λ e. e ≢ PartRefused.Memory) }
{
    get_instrs_at(alloc, 0, bytes)
}
