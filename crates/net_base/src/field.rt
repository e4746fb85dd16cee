ghost use Rattle.std.specs.Prelude.{◌≡◌, IfSome, IfNone};
ghost use Rattle.net_base.specs.declared.field.FieldId.{FieldId};
ghost use Rattle.net_base.specs.FieldId.{seen_row, row_of, all_fields, number_of, bits_of, byte_len_of, may_be_masked, prerequisites_of, all_ones};
ghost use Rattle.net_base.specs.Field.{exact, bits, prefix, prefix6};

use crate::items::Items;
use crate::net4::Net4;
use crate::net6::Net6;
use crate::try_copy::{NoMemory, TryCopy};
use std::alloc::Global;

/// A header field that a flow entry may match (OpenFlow 1.3, 7.2.3.7).
#[derive(Clone, Copy, Debug, PartialEq, Eq)]
pub enum FieldId {
    InPort,
    EthDst,
    EthSrc,
    EthType,
    VlanVid,
    VlanPcp,
    IpProto,
    Ipv4Src,
    Ipv4Dst,
    TcpSrc,
    TcpDst,
    UdpSrc,
    UdpDst,
    Icmpv4Type,
    Icmpv4Code,
    ArpOp,
    ArpSpa,
    ArpTpa,
    Ipv6Src,
    Ipv6Dst,
    Icmpv6Type,
    Icmpv6Code,
    Ipv6NdTarget,
}

/// What a field of a match may ask of the match that it stands in (OpenFlow 1.3, 7.2.3.6).
#[derive(Clone, Copy, Debug, PartialEq, Eq)]
pub enum Prerequisite {
    /// A VLAN identifier that isn't 0, whatever its mask.
    Tagged,
    /// The field with just this value, no bit of it masked out.
    Exactly {
        id: FieldId,
        value: u128,
    },
    /// The field with one of these two values, no bit of it masked out.
    Either {
        id: FieldId,
        value: u128,
        other: u128,
    },
}

/// A row of the table of fields (OpenFlow 1.3, 7.2.3.7, table 12).
#[derive(Clone, Copy)]
pub struct FieldRow {
    /// The field's number (`oxm_ofb_match_fields`).
    pub number: u8,
    /// How many bits a value has.
    pub bits: usize,
    /// How many bytes a value takes in a match.
    pub byte_len: usize,
    /// Whether a mask may leave out bits of a value.
    pub may_be_masked: bool,
    /// What the match has to have: each of these.
    pub prerequisites: &'static [Prerequisite],
}

macro_rules! row {
    ($number:literal, $bits:expr, $byte_len:literal, $may_be_masked:literal, $prerequisites:expr) => {
        FieldRow {
            number: $number,
            bits: $bits,
            byte_len: $byte_len,
            may_be_masked: $may_be_masked,
            prerequisites: $prerequisites,
        }
    };
}

macro_rules! exactly {
    ($id:ident, $value:literal) => {
        Prerequisite::Exactly {
            id: FieldId::$id,
            value: $value,
        }
    };
}

macro_rules! either {
    ($id:ident, $value:literal, $other:literal) => {
        Prerequisite::Either {
            id: FieldId::$id,
            value: $value,
            other: $other,
        }
    };
}

// The headers that fields ask for.
const TAG: [Prerequisite; 1] = [Prerequisite::Tagged];

const IP: [Prerequisite; 1] = [either!(EthType, 0x0800, 0x86dd)];

const IPV4: [Prerequisite; 1] = [exactly!(EthType, 0x0800)];

const IPV6: [Prerequisite; 1] = [exactly!(EthType, 0x86dd)];

const ARP: [Prerequisite; 1] = [exactly!(EthType, 0x0806)];

const TCP: [Prerequisite; 1] = [exactly!(IpProto, 6)];

const UDP: [Prerequisite; 1] = [exactly!(IpProto, 17)];

const ICMPV4: [Prerequisite; 2] = [exactly!(EthType, 0x0800), exactly!(IpProto, 1)];

const ICMPV6: [Prerequisite; 2] = [exactly!(EthType, 0x86dd), exactly!(IpProto, 58)];

// A solicitation for a neighbour, or an advertisement of one (RFC 4861, 4.3 and 4.4).
const NEIGHBOUR: [Prerequisite; 3] = [
    exactly!(EthType, 0x86dd),
    exactly!(IpProto, 58),
    either!(Icmpv6Type, 135, 136),
];

/// Every field, by number.
const ALL_FIELDS: [FieldId; 23] = [
    FieldId::InPort,
    FieldId::EthDst,
    FieldId::EthSrc,
    FieldId::EthType,
    FieldId::VlanVid,
    FieldId::VlanPcp,
    FieldId::IpProto,
    FieldId::Ipv4Src,
    FieldId::Ipv4Dst,
    FieldId::TcpSrc,
    FieldId::TcpDst,
    FieldId::UdpSrc,
    FieldId::UdpDst,
    FieldId::Icmpv4Type,
    FieldId::Icmpv4Code,
    FieldId::ArpOp,
    FieldId::ArpSpa,
    FieldId::ArpTpa,
    FieldId::Ipv6Src,
    FieldId::Ipv6Dst,
    FieldId::Icmpv6Type,
    FieldId::Icmpv6Code,
    FieldId::Ipv6NdTarget,
];

/// Every field, by number.
pub fn all_fields() -> &'static [FieldId]
    ensures { result.now ≡ all_fields }
{
    &ALL_FIELDS
}

impl FieldId {
    /// The field's row in the table of fields.
    pub fn row(self) -> FieldRow
        ensures { seen_row result ≡ row_of self }
    {
        match self {
            FieldId::InPort => row!(0, 32, 4, false, &[]),
            FieldId::EthDst => row!(3, 48, 6, true, &[]),
            FieldId::EthSrc => row!(4, 48, 6, true, &[]),
            FieldId::EthType => row!(5, 16, 2, false, &[]),
            FieldId::VlanVid => row!(6, 12 + 1, 2, true, &[]),
            FieldId::VlanPcp => row!(7, 3, 1, false, &TAG),
            FieldId::IpProto => row!(10, 8, 1, false, &IP),
            FieldId::Ipv4Src => row!(11, 32, 4, true, &IPV4),
            FieldId::Ipv4Dst => row!(12, 32, 4, true, &IPV4),
            FieldId::TcpSrc => row!(13, 16, 2, false, &TCP),
            FieldId::TcpDst => row!(14, 16, 2, false, &TCP),
            FieldId::UdpSrc => row!(15, 16, 2, false, &UDP),
            FieldId::UdpDst => row!(16, 16, 2, false, &UDP),
            FieldId::Icmpv4Type => row!(19, 8, 1, false, &ICMPV4),
            FieldId::Icmpv4Code => row!(20, 8, 1, false, &ICMPV4),
            FieldId::ArpOp => row!(21, 16, 2, false, &ARP),
            FieldId::ArpSpa => row!(22, 32, 4, true, &ARP),
            FieldId::ArpTpa => row!(23, 32, 4, true, &ARP),
            FieldId::Ipv6Src => row!(26, 128, 16, true, &IPV6),
            FieldId::Ipv6Dst => row!(27, 128, 16, true, &IPV6),
            FieldId::Icmpv6Type => row!(29, 8, 1, false, &ICMPV6),
            FieldId::Icmpv6Code => row!(30, 8, 1, false, &ICMPV6),
            FieldId::Ipv6NdTarget => row!(31, 128, 16, false, &NEIGHBOUR),
        }
    }

    /// The field's number.
    pub fn number(self) -> u8
        ensures { result ≡ number_of self }
    {
        self.row().number
    }

    /// How many bits a value of the field has.
    pub fn bits(self) -> usize
        ensures { result ≡ bits_of self }
    {
        self.row().bits
    }

    /// How many bytes a value of the field takes in a match.
    pub fn byte_len(self) -> usize
        ensures { result ≡ byte_len_of self }
    {
        self.row().byte_len
    }

    /// Whether a mask may leave out bits of the field.
    pub fn may_be_masked(self) -> bool
        ensures { result ≡ may_be_masked self }
    {
        self.row().may_be_masked
    }

    /// What the field asks of the match that it stands in: each of these.
    pub fn prerequisites(self) -> &'static [Prerequisite]
        ensures { result.now ≡ prerequisites_of self }
    {
        self.row().prerequisites
    }

    /// The field with this number; `None` exactly where no field has it.
    pub fn of_number(number: u8) -> Option<FieldId>
        ensures found { IfSome result (λ id. number_of id ≡ number) }
        ensures none { IfNone result ((id : FieldId) → number_of id ≡ number → ⊥) }
    {
        for id in all_fields() {
            if id.number() == number {
                return Some(*id);
            }
        }
        None
    }

    /// The mask that leaves no bit of the field out.
    #[tactic(auto, using(crate::proofs::Rows::one_byte, crate::proofs::Rows::most_bytes))]
    pub fn all_ones(self) -> u128
        ensures { result ≡ all_ones self }
    {
        u128::MAX >> (128 - 8 * self.byte_len())
    }
}

/// One field of a match: the packet's value has to agree with `value` in the bits of `mask`.
#[derive(Clone, Copy, Debug, PartialEq, Eq)]
pub struct Field {
    pub id: FieldId,
    pub value: u128,
    pub mask: u128,
}

impl Field {
    /// A field that a packet agrees with exactly where it has this value.
    pub fn exact(id: FieldId, value: u128) -> Field
        ensures { result ≡ exact id value }
    {
        Field {
            id,
            value,
            mask: id.all_ones(),
        }
    }

    /// The field that an address agrees with exactly where the network holds it: the bits of the
    /// prefix are wanted, and no other.
    pub fn prefix(id: FieldId, net: Net4) -> Field
        ensures { result ≡ prefix id net.ip.0 net.len }
    {
        let size = 1_u128 << (32 - net.len);
        Field {
            id,
            value: u128::from(net.ip.0) / size * size,
            mask: 0x1_0000_0000 - size,
        }
    }

    /// The same of an IPv6 network.
    #[tactic(auto, using(crate::proofs::Prefixes::no_prefix))]
    pub fn prefix6(id: FieldId, net: Net6) -> Field
        ensures { result ≡ prefix6 id net.ip.0 net.len }
    {
        if net.len == 0 {
            return Field::bits(id, 0);
        }
        let size = 1_u128 << (128 - net.len);
        Field {
            id,
            value: net.ip.0 / size * size,
            mask: u128::MAX - (size - 1),
        }
    }

    /// A field that a packet agrees with exactly where it has all bits of `value`.
    pub fn bits(id: FieldId, value: u128) -> Field
        ensures { result ≡ bits id value }
    {
        Field {
            id,
            value,
            mask: value,
        }
    }
}

/// The fields of a match.
pub type Fields = Items<Field>;

impl TryCopy for Field {
    fn copy(&self, _alloc: Global) -> Result<Field, NoMemory> {
        Ok(*self)
    }
}
