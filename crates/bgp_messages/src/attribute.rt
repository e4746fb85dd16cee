ghost use Rattle.std.specs.Prelude.{◌≡◌, ◌≤◌, ◌<◌, ◌+◌, [], length, find, IfSome, IfNone, IfOk};
ghost use Rattle.bgp_messages.specs.Numbers.{has_bit, number_in};
ghost use Rattle.bgp_messages.specs.Grammar.{Begins, BeginsNone, Joined, Parsed};
ghost use Rattle.bgp_messages.specs.Attributes.{is_optional, is_transitive, length_octets, SpellsAttribute, AreSizes, is_recognized, is_mandatory, has_wrong_flags, has_wrong_length, has_kind, attribute_fault, attributes_fault, is_of, value_or_none, value_of};
ghost use Rattle.std.specs.Option.{option_copied};

use crate::fault::Fault;
use crate::number::{byte_or_zero, u8_at, u16_at};
use net_base::{Bytes, Items, NoMemory, TryCopy};
use std::alloc::Global;

/// The types of attributes that are read (RFC 4271, 5.1).
pub(crate) const ORIGIN: u8 = 1;

pub(crate) const AS_PATH: u8 = 2;

pub(crate) const NEXT_HOP: u8 = 3;

/// The flags of attributes (RFC 4271, 4.3).
const OPTIONAL: u8 = 128;

const TRANSITIVE: u8 = 64;

const EXTENDED: u8 = 16;

/// A path attribute (RFC 4271, 4.3).
#[derive(Debug, Drop)]
pub struct Attribute {
    pub flags: u8,
    pub kind: u8,
    pub value: Bytes,
}

impl TryCopy for Attribute {
    fn copy(&self, alloc: Global) -> Result<Attribute, NoMemory> {
        Ok(Attribute {
            flags: self.flags,
            kind: self.kind,
            value: self.value.copy(alloc)?,
        })
    }
}

/// Path attributes.
pub type Attributes = Items<Attribute>;

fn is_optional(flags: u8) -> bool
    ensures { result ≡ is_optional flags }
{
    flags & OPTIONAL != 0
}

fn is_transitive(flags: u8) -> bool
    ensures { result ≡ is_transitive flags }
{
    flags & TRANSITIVE != 0
}

/// How many bytes an attribute's length has.
fn length_octets(flags: u8) -> usize
    ensures { result ≡ length_octets flags }
{
    if flags & EXTENDED != 0 { 2 } else { 1 }
}

/// The number in the one or two bytes that tell the length of the attribute at the front.
fn told_length(octets: usize, bytes: &[u8]) -> u16
    requires octets { octets ≡ length_octets (number_in 0 1 bytes.now) }
    requires there { 2 + octets ≤ length bytes.now }
    ensures { result ≡ number_in 2 octets bytes.now }
{
    if octets == 2 {
        u16_at(bytes, 2)
    } else {
        u16::from(u8_at(bytes, 2))
    }
}

/// How many bytes stand before the value of the attribute at the front, and how many it takes with it.
fn first_sizes(bytes: &[u8]) -> Option<(usize, usize)>
    requires { 0 < length bytes.now }
    ensures found { IfSome result (λ x. AreSizes x.0 x.1 bytes.now) }
    ensures none { IfNone result (BeginsNone SpellsAttribute bytes.now) }
{
    let octets = length_octets(u8_at(bytes, 0));
    let head = 2 + octets;
    if bytes.len() < head {
        return None;
    }
    let len = usize::from(told_length(octets, bytes));
    if bytes.len() < head + len {
        return None;
    }
    Some((head, head + len))
}

/// The attributes that the bytes spell; `None` exactly where their lengths disagree with the end.
pub(crate) fn read_attributes(alloc: Global, bytes: &[u8]) -> Result<Option<Attributes>, NoMemory>
    ensures { IfOk result (λ attributes. Parsed (Joined SpellsAttribute) bytes.now attributes) }
{
    let mut attributes = Attributes::new(alloc);
    let mut rest = bytes;
    while !rest.is_empty() {
        let Some((head, len)) = first_sizes(rest) else {
            return Ok(None);
        };
        let (front, after) = rest.split_at(len);
        let (_, value) = front.split_at(head);
        attributes.push(Attribute {
            flags: u8_at(rest, 0),
            kind: u8_at(rest, 1),
            value: Bytes::from_slice(alloc, value)?,
        })?;
        rest = after;
    }
    Ok(Some(attributes))
}

fn is_recognized(kind: u8) -> bool
    ensures { result ≡ is_recognized kind }
{
    0 < kind && kind < 8
}

fn is_mandatory(kind: u8) -> bool
    ensures { result ≡ is_mandatory kind }
{
    0 < kind && kind < 4
}

fn has_wrong_flags(a: &Attribute) -> bool
    ensures { result ≡ has_wrong_flags a.now }
{
    is_mandatory(a.kind) && (is_optional(a.flags) || !is_transitive(a.flags))
}

fn has_wrong_length(a: &Attribute) -> bool
    ensures { result ≡ has_wrong_length a.now }
{
    a.kind == ORIGIN && a.value.len() != 1 || 2 < a.kind && a.kind < 6 && a.value.len() != 4
}

/// Whether there is an attribute of a type.
pub(crate) fn has_kind(kind: u8, attributes: &[Attribute]) -> bool
    ensures { result ≡ has_kind kind attributes.now }
{
    attributes.iter().any(|a| a.kind == kind)
}

/// The first thing that is wrong with an attribute behind others (RFC 4271, 6.3), where it is told
/// whether the value of AS_PATH is a path.
fn attribute_fault(is_path: bool, before: &[Attribute], a: &Attribute) -> Option<Fault>
    ensures { result ≡ attribute_fault is_path before.now a.now }
{
    if has_kind(a.kind, before) {
        Some(Fault::MalformedAttributeList)
    } else if !is_recognized(a.kind) && !is_optional(a.flags) {
        Some(Fault::UnrecognizedWellKnownAttribute)
    } else if has_wrong_flags(a) {
        Some(Fault::AttributeFlagsError)
    } else if has_wrong_length(a) {
        Some(Fault::AttributeLengthError)
    } else if a.kind == ORIGIN && byte_or_zero(a.value.as_slice(), 0) > 2 {
        Some(Fault::InvalidOriginAttribute)
    } else if a.kind == AS_PATH && !is_path {
        Some(Fault::MalformedAsPath)
    } else {
        None
    }
}

/// The first fault, attribute by attribute.
pub(crate) fn attributes_fault(is_path: bool, attributes: &[Attribute]) -> Option<Fault>
    ensures { result ≡ attributes_fault is_path [] attributes.now }
{
    for (i, a) in attributes.iter().enumerate() {
        if let Some(fault) = attribute_fault(is_path, &attributes[..i], a) {
            return Some(fault);
        }
    }
    None
}

/// The first attribute of a type.
fn of_kind(kind: u8, attributes: &[Attribute]) -> Option<&Attribute>
    ensures { option_copied result ≡ find (is_of kind) attributes.now }
{
    attributes.iter().find(|a| a.kind == kind)
}

/// The value of the attribute of a type, or no byte where there is none.
pub(crate) fn value_of(kind: u8, attributes: &[Attribute]) -> &[u8]
    ensures { result.now ≡ value_of kind attributes.now }
{
    match of_kind(kind, attributes) {
        Some(a) => a.value.as_slice(),
        None => &[],
    }
}
