ghost use Rattle.std.specs.Prelude.{◌≡◌, ◌≤◌, map, IfOk};
ghost use Rattle.std.specs.Option.{option_copied};
ghost use Rattle.net_base.specs.declared.field.FieldId.{FieldId};
ghost use Rattle.net_base.specs.AddressReading.{spelled_mac};
ghost use Rattle.conf_shape.specs.Addresses.{ip_in, net_in};
ghost use Rattle.conf_shape.specs.Keys.{seen_pair, seen_row, asked_of, match_keys_of};
ghost use Rattle.conf_shape.specs.Values.{mac_of, ip_of, net_of, identifier_of, prefix_of, tag_bit, number_field, mac_number, masked, mac_field, ip_field, text_field, field_of, spelled_at, raw_field, fields_by};

use crate::addresses::{ip_in, net_in, parse_ip4, parse_mac, parts_of, width_written};
use crate::keys::{key_text, spells};
use crate::kinds::Kind;
use crate::raw::{RawField, RawFields};
use crate::scalars::{ETHERNET_BITS, within};
use crate::tables::Row;
use conf_types::{Ip, Net};
use net_base::{Field, FieldId, Ip4, Items, Mac, Net4, NoMemory};
use std::alloc::Global;
use yaml_tree::{Pair, Tree};

/// The Ethernet address that a text spells.
pub fn mac_of(text: &str) -> Mac
    ensures { result ≡ mac_of text.now }
{
    match parse_mac(text) {
        Some(mac) => mac,
        None => Mac([0; 6]),
    }
}

/// The IP address that a text spells.
pub fn ip_of(text: &str) -> Ip
    ensures { result ≡ ip_of text.now }
{
    match ip_in(width_written(text), text) {
        Some(ip) => ip,
        None => Ip::V4(Ip4(0)),
    }
}

/// The network that a text spells.
pub fn net_of(text: &str) -> Net
    ensures { result ≡ net_of text.now }
{
    match net_in(width_written(text), text) {
        Some(net) => net,
        None => Net::V4(Net4 { ip: Ip4(0), len: 0 }),
    }
}

/// What a speaker of BGP is called: the IPv4 address that a text spells.
pub fn identifier_of(text: &str) -> Ip4
    ensures { result ≡ identifier_of text.now }
{
    match parse_ip4(text) {
        Some(ip) => Ip4(ip),
        None => Ip4(0),
    }
}

/// Of a VLAN, the bit that says that there is a tag (OpenFlow 1.3, 7.2.3.7).
fn tag_bit(id: FieldId) -> u64
    ensures value { result ≡ tag_bit id }
    ensures range { result ≤ 0x1000 }
{
    match id {
        FieldId::VlanVid => 0x1000,
        _ => 0,
    }
}

fn number_field(id: FieldId, n: u64) -> Field
    requires { n ≤ 0xffff }
    ensures { result ≡ number_field id n }
{
    Field::exact(id, u128::from(tag_bit(id) + n))
}

/// The number of the Ethernet address that a text spells.
fn mac_number(text: &str) -> Option<u128>
    ensures { result ≡ mac_number (spelled_mac text.now) }
{
    match parse_mac(text) {
        Some(mac) => Some(mac.value()),
        None => None,
    }
}

/// A field with a mask, which leaves the field out where it is zero.
fn masked(id: FieldId, value: Option<u128>, mask: Option<u128>) -> Option<Field>
    ensures { result ≡ masked id value mask }
{
    match (value, mask) {
        (Some(value), Some(mask)) if mask != 0 => Some(Field { id, value, mask }),
        _ => None,
    }
}

/// An address, or a value and a mask around a slash.
fn mac_field(id: FieldId, text: &str) -> Option<Field>
    ensures { result ≡ mac_field id text.now }
{
    match parts_of(text) {
        Some((value, mask)) => masked(id, mac_number(value), mac_number(mask)),
        None => match mac_number(text) {
            Some(value) => Some(Field::exact(id, value)),
            None => None,
        },
    }
}

/// The field of a network's prefix.
fn prefix_of(id: FieldId, net: Net) -> Field
    ensures { result ≡ prefix_of id net }
{
    match net {
        Net::V4(net) => Field::prefix(id, net),
        Net::V6(net) => Field::prefix6(id, net),
    }
}

/// An address, or a network, whose prefix leaves the field out where it has no bit.
fn ip_field(id: FieldId, width: usize, text: &str) -> Option<Field>
    ensures { result ≡ ip_field id (ip_in width text.now) (net_in width text.now) }
{
    if let Some(ip) = ip_in(width, text) {
        return Some(Field::exact(id, ip.value()));
    }
    match net_in(width, text) {
        Some(net) => {
            if net.len() == 0 {
                None
            } else {
                Some(prefix_of(id, net))
            }
        }
        None => None,
    }
}

fn text_field(id: FieldId, text: &str) -> Option<Field>
    ensures { result ≡ text_field id text.now }
{
    if id.bits() == ETHERNET_BITS {
        mac_field(id, text)
    } else {
        ip_field(id, id.bits(), text)
    }
}

/// The field that a value gives; `None` where it leaves all bits out.
fn field_of(id: FieldId, tree: &Tree) -> Option<Field>
    ensures { result ≡ field_of id tree.now }
{
    match tree {
        Tree::Int(n) => match within(0, 0xffff, *n) {
            Some(n) => Some(number_field(id, n)),
            None => None,
        },
        Tree::Text(text) => text_field(id, text.as_str()),
        _ => None,
    }
}

/// The entry of a field, in any of its spellings.
fn spelled_at<'a>(
    spellings: &[(&'static str, &'static str)],
    name: &str,
    pairs: &'a [Pair],
) -> Option<&'a Pair>
    ensures { option_copied result ≡ spelled_at (map seen_pair spellings.now) name.now pairs.now }
{
    for pair in pairs {
        if spells(spellings, name, &pair.key) {
            return Some(pair);
        }
    }
    None
}

/// A field under the key as it is spelled.
fn raw_field(alloc: Global, id: FieldId, given: Option<&Pair>) -> Result<Option<RawField>, NoMemory>
    ensures { IfOk result (λ made. made ≡ raw_field id (option_copied given.entry)) }
{
    let Some(pair) = given else {
        return Ok(None);
    };
    match field_of(id, &pair.value) {
        Some(field) => Ok(Some(RawField {
            key: key_text(alloc, &pair.key)?,
            field,
        })),
        None => Ok(None),
    }
}

/// The field that a kind of value asks for.
fn asked_of(kind: Kind) -> Option<FieldId>
    ensures { result ≡ asked_of kind }
{
    match kind {
        Kind::Asked { id } => Some(id),
        _ => None,
    }
}

/// The fields of a rule, in the order of its keys.
pub fn fields_of(
    alloc: Global,
    rows: &[Row],
    spellings: &[(&'static str, &'static str)],
    pairs: &[Pair],
) -> Result<RawFields, NoMemory>
    ensures { IfOk result (λ made. made ≡ fields_by (map seen_pair spellings.now) (match_keys_of (map seen_row rows.now)) pairs.now) }
{
    let mut fields = Items::new(alloc);
    for row in rows {
        let Some(id) = asked_of(row.kind) else {
            continue;
        };
        if let Some(field) = raw_field(alloc, id, spelled_at(spellings, row.key, pairs))? {
            fields.push(field)?;
        }
    }
    Ok(fields)
}
