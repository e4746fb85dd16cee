ghost use Rattle.std.specs.Prelude.{◌≡◌, ◌≤◌, length, List, [], is_some, Option, IfSome, IfNone, IfOk, IsErrOf};
ghost use Rattle.bgp_messages.specs.declared.fault.Fault.{Fault};
ghost use Rattle.bgp_messages.specs.Attributes.{has_kind};
ghost use Rattle.bgp_messages.specs.Updates.{HasFields, Fits, has_mandatory, missing_fault, parts_fault, update_with, list_or_none, Judges, ReadsUpdate};

use crate::attribute::{
    AS_PATH, Attribute, NEXT_HOP, ORIGIN, attributes_fault, has_kind, read_attributes, value_of,
};
use crate::fault::{Fault, Refused};
use crate::message::Update;
use crate::number::{address_of, u16_at};
use crate::path::{Numbers, read_path};
use crate::prefixes::{Prefixes, read_prefixes};
use net_base::Ip4;
use std::alloc::Global;

/// The fields of an UPDATE.
#[derive(Clone, Copy)]
struct Fields<'a> {
    withdrawn: &'a [u8],
    attributes: &'a [u8],
    announced: &'a [u8],
}

/// The fields of an UPDATE (RFC 4271, 4.3); `None` exactly where a length passes the end.
fn split(body: &[u8]) -> Option<Fields<'_>>
    requires { 4 ≤ length body.now }
    ensures found { IfSome result (λ f. HasFields body.now f.withdrawn.now f.attributes.now f.announced.now) }
    ensures none { IfNone result (Fits body.now → ⊥) }
{
    let withdrawn_len = usize::from(u16_at(body, 0));
    let (_, behind) = body.split_at(2);
    if behind.len() < withdrawn_len + 2 {
        return None;
    }
    let (withdrawn, behind) = behind.split_at(withdrawn_len);
    let attributes_len = usize::from(u16_at(behind, 0));
    let (_, behind) = behind.split_at(2);
    if behind.len() < attributes_len {
        return None;
    }
    let (attributes, announced) = behind.split_at(attributes_len);
    Some(Fields {
        withdrawn,
        attributes,
        announced,
    })
}

fn has_mandatory(attributes: &[Attribute]) -> bool
    ensures { result ≡ has_mandatory attributes.now }
{
    has_kind(ORIGIN, attributes) && has_kind(AS_PATH, attributes) && has_kind(NEXT_HOP, attributes)
}

fn missing_fault(attributes: &[Attribute], announced: &Prefixes) -> Option<Fault>
    ensures { result ≡ missing_fault attributes.now announced.now }
{
    if announced.len() != 0 && !has_mandatory(attributes) {
        Some(Fault::MissingWellKnownAttribute)
    } else {
        None
    }
}

/// The first thing that is wrong with the parts of an UPDATE.
fn parts_fault(
    attributes: &[Attribute],
    withdrawn: &Option<Prefixes>,
    announced: &Option<Prefixes>,
    path: &Option<Numbers>,
) -> Option<Fault>
    ensures { result ≡ parts_fault attributes.now withdrawn.now announced.now path.now }
{
    match (withdrawn, announced) {
        (Some(_), Some(announced)) => match attributes_fault(path.is_some(), attributes) {
            Some(fault) => Some(fault),
            None => missing_fault(attributes, announced),
        },
        _ => Some(Fault::InvalidNetworkField),
    }
}

/// What an UPDATE with these parts says.
fn update_with(
    alloc: Global,
    attributes: &[Attribute],
    withdrawn: Option<Prefixes>,
    announced: Option<Prefixes>,
    path: Option<Numbers>,
) -> Update
    ensures { result ≡ update_with attributes.now withdrawn announced path }
{
    let next_hop = Ip4(address_of(value_of(NEXT_HOP, attributes)));
    Update {
        withdrawn: match withdrawn {
            Some(nets) => nets,
            None => Prefixes::new(alloc),
        },
        path: match path {
            Some(numbers) => numbers,
            None => Numbers::new(alloc),
        },
        next_hop,
        announced: match announced {
            Some(nets) => nets,
            None => Prefixes::new(alloc),
        },
    }
}

/// The UPDATE with these parts, or the first thing that is wrong with them.
fn judge(
    alloc: Global,
    attributes: &[Attribute],
    withdrawn: Option<Prefixes>,
    announced: Option<Prefixes>,
    path: Option<Numbers>,
) -> Result<Update, Fault>
    ensures { Judges attributes.now withdrawn announced path result }
{
    match parts_fault(attributes, &withdrawn, &announced, &path) {
        Some(fault) => Err(fault),
        None => Ok(update_with(alloc, attributes, withdrawn, announced, path)),
    }
}

/// Reads the body of an UPDATE (RFC 4271, 4.3 and 6.3).
pub(crate) fn read_update(alloc: Global, body: &[u8]) -> Result<Update, Refused>
    requires { 4 ≤ length body.now }
    ensures { ReadsUpdate body.now result }
{
    let Some(fields) = split(body) else {
        return Err(Refused::Fault(Fault::MalformedAttributeList));
    };
    let Some(attributes) = read_attributes(alloc, fields.attributes)? else {
        return Err(Refused::Fault(Fault::MalformedAttributeList));
    };
    let path = read_path(alloc, value_of(AS_PATH, attributes.as_slice()))?;
    let withdrawn = read_prefixes(alloc, fields.withdrawn)?;
    let announced = read_prefixes(alloc, fields.announced)?;
    match judge(alloc, attributes.as_slice(), withdrawn, announced, path) {
        Ok(update) => Ok(update),
        Err(fault) => Err(Refused::Fault(fault)),
    }
}
