use net_base::FieldId;

/// The greatest identifier of a VLAN; the least is 1 (IEEE 802.1Q, 9.6).
pub const MOST_VID: u64 = 4094;

/// The greatest number of a port; the least is 1 (OpenFlow 1.3, 7.2.1).
pub const MOST_PORT_NO: u64 = 0xffff_ff00;

/// A VLAN by its name or its number.
pub const VLAN_NAMED: Scalar = Scalar::Reference {
    low: 1,
    high: MOST_VID,
};

/// A port by its name or its number.
pub const PORT_NAMED: Scalar = Scalar::Reference {
    low: 1,
    high: MOST_PORT_NO,
};

/// What a value that is no list and no map has to be.
#[derive(Clone, Copy)]
pub enum Scalar {
    /// `true` or `false`.
    Flag,
    /// A whole number in a range.
    Number { low: u64, high: u64 },
    /// A text of 1 to 255 bytes.
    Name,
    /// Any text.
    Words,
    /// Any text, or a whole number, which stands for its decimal digits.
    Label,
    /// Any text, or a whole number in a range: a VLAN or a port, by its name or its number.
    Reference { low: u64, high: u64 },
    /// `true`, `false`, 1 or 0.
    Permission,
    /// A flag, a whole number or a text, which has no effect.
    NoEffect,
    /// The Ethernet address of one station, not zero.
    StationMac,
    /// An Ethernet address, or one with a slash and a mask.
    MaskedMac,
    /// An IP address with the length of its network, 1 to 31, or 1 to 127 where it is IPv6.
    Vip,
    /// An IP network without host bits.
    Destination,
    /// An IP address.
    Gateway,
    /// An IP address of so many bits, or a network of them without host bits, in a match.
    Prefix { width: usize },
    /// An IP address of so many bits, in a match.
    Address { width: usize },
    /// An IPv4 address that isn't zero: what a speaker of BGP is called.
    Identifier,
    /// The word `passive`.
    Passive,
}

/// A kind of map of a configuration.
#[derive(Clone, Copy)]
pub enum MapKind {
    /// The whole document.
    Top,
    /// `dps`: datapaths by their names.
    Datapaths,
    Datapath,
    /// `stack` of a datapath.
    DatapathStack,
    /// `lldp_beacon` of a datapath.
    LldpBeacon,
    /// `interfaces`: interfaces by their numbers or names.
    Interfaces,
    /// An interface; its number where its key gives it.
    Interface { number: Option<u64> },
    /// `stack` of an interface.
    PortStack,
    /// `vlans`: VLANs by their numbers or names.
    Vlans,
    /// A VLAN; its number where its key gives it.
    Vlan { number: Option<u64> },
    /// An item of `routes`.
    RouteItem,
    Route,
    /// `acls`: lists of rules by their names.
    Acls,
    /// An item of an ACL.
    RuleItem,
    Rule,
    Actions,
    Output,
    /// `routers`: routers by their names.
    Routers,
    Router,
    /// `bgp` of a router.
    Bgp,
}

/// What a value has to be.
#[derive(Clone, Copy)]
pub enum Kind {
    One(Scalar),
    /// A list of such values.
    Several(Scalar),
    /// Such a value or a list of them.
    OneOrSeveral(Scalar),
    /// A whole number in a range, and the number of the map's own key where that gives one.
    Given { low: u64, high: u64 },
    /// What a rule asks of a match field: one value, by the field's row in the table of fields.
    Asked { id: FieldId },
    Map(MapKind),
    /// A list of such maps.
    Maps(MapKind),
    /// Such a map or a list of them.
    MapOrMaps(MapKind),
}

/// Whether a key has to be there.
#[derive(Clone, Copy)]
pub enum Need {
    Always,
    /// Where the map's own key gives no number.
    UnlessNumbered,
    /// Where `bgp` isn't given.
    UnlessBgp,
    Never,
}

/// What stands where a key isn't given.
#[derive(Clone, Copy)]
pub enum DefaultValue {
    /// No value, or an empty list.
    Nothing,
    /// `true`.
    On,
    /// `false`.
    Off,
    Count(u32),
    /// The value that this text spells.
    Spelled(&'static str),
    /// The map's own key.
    OwnKey,
    /// What stands for the map's `name`.
    OwnName,
}
