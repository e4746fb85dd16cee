ghost use Rattle.std.specs.Prelude.{◌≡◌};
ghost use Rattle.conf_shape.specs.declared.kinds.Scalar.TheVariants.{Name, Passive};
ghost use Rattle.conf_shape.specs.Scalars.{within, if_within, is_name, flag_fault, number_fault, text_fault, asked_scalar, scalar_kind, item_kind, map_kind, flag_cause, number_cause, text_cause};

use crate::addresses::{
    address_cause, destination_cause, gateway_cause, identifier_cause, masked_cause, prefix_cause,
    station_cause, vip_cause,
};
use crate::kinds::{Kind, MOST_VID, MapKind, Scalar};
use crate::refused::ConfCause;
use net_base::FieldId;

/// The bits of an Ethernet address.
pub const ETHERNET_BITS: usize = 48;

/// The number, where it stands in the range.
pub fn within(low: u64, high: u64, n: i128) -> Option<u64>
    ensures { result ≡ within low high n }
{
    let n = u64::try_from(n).ok()?;
    if low <= n && n <= high { Some(n) } else { None }
}

fn range_fault(low: u64, high: u64, n: i128) -> Option<ConfCause>
    ensures { result ≡ if_within (within low high n) }
{
    match within(low, high, n) {
        Some(_) => None,
        None => Some(ConfCause::OutOfRange),
    }
}

/// Whether the text has 1 to 255 bytes.
pub fn is_name(text: &str) -> bool
    ensures { result ≡ is_name text.now }
{
    1 <= text.len() && text.len() <= 255
}

fn flag_fault(scalar: Scalar) -> Option<ConfCause>
    ensures { result ≡ flag_fault scalar }
{
    match scalar {
        Scalar::Flag | Scalar::Permission | Scalar::NoEffect => None,
        _ => Some(ConfCause::WrongType),
    }
}

fn number_fault(scalar: Scalar, n: i128) -> Option<ConfCause>
    ensures { result ≡ number_fault scalar n }
{
    match scalar {
        Scalar::Number { low, high } => range_fault(low, high, n),
        Scalar::Reference { low, high } => range_fault(low, high, n),
        Scalar::Permission => range_fault(0, 1, n),
        Scalar::Label | Scalar::NoEffect => None,
        _ => Some(ConfCause::WrongType),
    }
}

fn name_fault(text: &str) -> Option<ConfCause>
    ensures { result ≡ text_fault Name text.now }
{
    if is_name(text) {
        None
    } else {
        Some(ConfCause::OutOfRange)
    }
}

fn passive_fault(text: &str) -> Option<ConfCause>
    ensures { result ≡ text_fault Passive text.now }
{
    if text == "passive" {
        None
    } else {
        Some(ConfCause::LeftOut)
    }
}

fn text_fault(scalar: Scalar, text: &str) -> Option<ConfCause>
    ensures { result ≡ text_fault scalar text.now }
{
    match scalar {
        Scalar::Flag | Scalar::Number { .. } | Scalar::Permission => Some(ConfCause::WrongType),
        Scalar::Words | Scalar::Label | Scalar::Reference { .. } | Scalar::NoEffect => None,
        Scalar::Name => name_fault(text),
        Scalar::StationMac => station_cause(text),
        Scalar::MaskedMac => masked_cause(text),
        Scalar::Vip => vip_cause(text),
        Scalar::Destination => destination_cause(text),
        Scalar::Gateway => gateway_cause(text),
        Scalar::Prefix { width } => prefix_cause(width, text),
        Scalar::Address { width } => address_cause(width, text),
        Scalar::Identifier => identifier_cause(text),
        Scalar::Passive => passive_fault(text),
    }
}

/// What a rule's value for a match field has to be: where a mask may leave bits out, or where there are
/// 64 or more, an Ethernet address or one of IP, and else a number of the field's bits. A VLAN is asked
/// for by its number.
pub fn asked_scalar(id: FieldId) -> Scalar
    ensures { result ≡ asked_scalar id }
{
    if let FieldId::VlanVid = id {
        return Scalar::Number {
            low: 1,
            high: MOST_VID,
        };
    }
    let bits = id.bits();
    if id.may_be_masked() {
        if bits == ETHERNET_BITS {
            Scalar::MaskedMac
        } else {
            Scalar::Prefix { width: bits }
        }
    } else if bits < 64 {
        let high = (1_u64 << bits) - 1;
        Scalar::Number { low: 0, high }
    } else {
        Scalar::Address { width: bits }
    }
}

/// What a scalar has to be where a value of this kind stands; `None` where none may stand.
fn scalar_kind(kind: Kind) -> Option<Scalar>
    ensures { result ≡ scalar_kind kind }
{
    match kind {
        Kind::One(scalar) | Kind::OneOrSeveral(scalar) => Some(scalar),
        Kind::Given { low, high } => Some(Scalar::Number { low, high }),
        Kind::Asked { id } => Some(asked_scalar(id)),
        _ => None,
    }
}

/// What the items of a list have to be where a value of this kind stands; `None` where none may.
pub fn item_kind(kind: Kind) -> Option<Kind>
    ensures { result ≡ item_kind kind }
{
    match kind {
        Kind::Several(scalar) | Kind::OneOrSeveral(scalar) => Some(Kind::One(scalar)),
        Kind::Maps(map) | Kind::MapOrMaps(map) => Some(Kind::Map(map)),
        _ => None,
    }
}

/// Which map may stand where a value of this kind stands; `None` where none may.
pub fn map_kind(kind: Kind) -> Option<MapKind>
    ensures { result ≡ map_kind kind }
{
    match kind {
        Kind::Map(map) | Kind::MapOrMaps(map) => Some(map),
        _ => None,
    }
}

/// What is wrong with a flag in the place of a value of this kind.
pub fn flag_cause(kind: Kind) -> Option<ConfCause>
    ensures { result ≡ flag_cause kind }
{
    match scalar_kind(kind) {
        Some(scalar) => flag_fault(scalar),
        None => Some(ConfCause::WrongType),
    }
}

/// What is wrong with a whole number in the place of a value of this kind.
pub fn number_cause(kind: Kind, n: i128) -> Option<ConfCause>
    ensures { result ≡ number_cause kind n }
{
    match scalar_kind(kind) {
        Some(scalar) => number_fault(scalar, n),
        None => Some(ConfCause::WrongType),
    }
}

/// What is wrong with a text in the place of a value of this kind.
pub fn text_cause(kind: Kind, text: &str) -> Option<ConfCause>
    ensures { result ≡ text_cause kind text.now }
{
    match scalar_kind(kind) {
        Some(scalar) => text_fault(scalar, text),
        None => Some(ConfCause::WrongType),
    }
}
