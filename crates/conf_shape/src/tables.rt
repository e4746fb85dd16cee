ghost use Rattle.std.specs.Prelude.{◌≡◌};
ghost use Rattle.conf_shape.specs.Keys.{seen_table, keys_of};

use crate::kinds::DefaultValue::{Count, Nothing, Off, On, OwnKey, OwnName, Spelled};
use crate::kinds::Kind::{Asked, Given, Map, MapOrMaps, Maps, One, OneOrSeveral, Several};
use crate::kinds::MapKind::{
    Acls, Actions, Bgp, DatapathStack, Datapaths, Interfaces, LldpBeacon, Output, PortStack, Route,
    RouteItem, Routers, Rule, Vlans,
};
use crate::kinds::Need::{Always, Never, UnlessBgp, UnlessNumbered};
use crate::kinds::Scalar::{
    Destination, Flag, Gateway, Identifier, Label, Name, NoEffect, Number, Passive, Permission,
    StationMac, Vip, Words,
};
use crate::kinds::{
    DefaultValue, Kind, MOST_PORT_NO, MOST_VID, MapKind, Need, PORT_NAMED, VLAN_NAMED,
};
use crate::refused::ConfCause;
use net_base::FieldId;

/// A key that a map may have.
#[derive(Clone, Copy)]
pub struct Row {
    pub key: &'static str,
    pub kind: Kind,
    pub need: Need,
    /// What stands where the key isn't given.
    pub default: DefaultValue,
}

/// The keys of a kind of map.
#[derive(Clone, Copy)]
pub struct Table {
    /// The keys that are read, in the order of the reference.
    pub rows: &'static [Row],
    /// The keys that are known and left out.
    pub left_out: &'static [&'static str],
    /// Other spellings, each with its key.
    pub spellings: &'static [(&'static str, &'static str)],
    /// What is wrong with a key that stands nowhere here.
    pub unlisted: ConfCause,
}

macro_rules! row {
    ($key:literal, $kind:expr, $need:expr, $default:expr) => {
        Row {
            key: $key,
            kind: $kind,
            need: $need,
            default: $default,
        }
    };
}

macro_rules! number {
    ($low:expr, $high:expr) => {
        Number {
            low: $low,
            high: $high,
        }
    };
}

macro_rules! asked {
    ($key:literal, $id:ident) => {
        row!(
            $key,
            Asked {
                id: FieldId::$id
            },
            Never,
            Nothing
        )
    };
}

const TOP: Table = Table {
    rows: &[
        row!("dps", Map(Datapaths), Always, Nothing),
        row!("vlans", Map(Vlans), Never, Nothing),
        row!("acls", Map(Acls), Never, Nothing),
        row!("routers", Map(Routers), Never, Nothing),
        row!("version", One(number!(2, 2)), Never, Nothing),
    ],
    left_out: &["include", "include-optional", "meters"],
    ..NONE
};

const DATAPATH: Table = Table {
    rows: &[
        row!("dp_id", One(number!(0, u64::MAX)), Always, Nothing),
        row!("interfaces", Map(Interfaces), Always, Nothing),
        row!("name", One(Name), Never, OwnKey),
        row!("description", One(Name), Never, OwnName),
        row!("hardware", One(Words), Never, Spelled("Open vSwitch")),
        row!("timeout", One(number!(1, 604_800)), Never, Count(300)),
        row!(
            "arp_neighbor_timeout",
            One(number!(1, 604_800)),
            Never,
            Count(30)
        ),
        row!("stack", Map(DatapathStack), Never, Nothing),
        row!("drop_spoofed_faucet_mac", One(Flag), Never, On),
        row!("drop_broadcast_source_address", One(Flag), Never, On),
        row!("drop_bpdu", One(Flag), Never, On),
        row!("drop_lldp", One(Flag), Never, On),
        row!("lldp_beacon", Map(LldpBeacon), Never, Nothing),
        row!("learn_ban_timeout", One(NoEffect), Never, Nothing),
        row!("learn_jitter", One(NoEffect), Never, Nothing),
        row!("ignore_learn_ins", One(NoEffect), Never, Nothing),
        row!("packetin_pps", One(NoEffect), Never, Nothing),
        row!("slowpath_pps", One(NoEffect), Never, Nothing),
        row!("max_resolve_backoff_time", One(NoEffect), Never, Nothing),
        row!("max_host_fib_retry_count", One(NoEffect), Never, Nothing),
        row!("max_hosts_per_resolve_cycle", One(NoEffect), Never, Nothing),
        row!("metrics_rate_limit_sec", One(NoEffect), Never, Nothing),
        row!("ofchannel_log", One(NoEffect), Never, Nothing),
        row!("combinatorial_port_flood", One(NoEffect), Never, Nothing),
        row!("cache_update_guard_time", One(NoEffect), Never, Nothing),
    ],
    left_out: &[
        "interface_ranges",
        "dot1x",
        "egress_pipeline",
        "group_table",
        "use_idle_timeout",
        "priority_offset",
        "low_priority",
        "high_priority",
        "lowest_priority",
        "highest_priority",
        "proactive_learn_v4",
        "proactive_learn_v6",
        "nd_neighbor_timeout",
        "idle_dst",
        "dp_acls",
        "global_vlan",
        "strict_packet_in_cookie",
        "multi_out",
        "advertise_interval",
        "table_sizes",
        "use_classification",
        "lacp_timeout",
    ],
    ..NONE
};

const DATAPATH_STACK: Table = Table {
    rows: &[row!("priority", One(number!(0, 0xffff_ffff)), Never, Nothing)],
    left_out: &[],
    spellings: &[],
    unlisted: ConfCause::LeftOut,
};

const LLDP_BEACON: Table = Table {
    rows: &[
        row!("send_interval", One(number!(1, 300)), Never, Count(5)),
        row!("max_per_interval", One(number!(1, 1024)), Never, Nothing),
    ],
    left_out: &[],
    spellings: &[],
    unlisted: ConfCause::LeftOut,
};

const INTERFACE: Table = Table {
    rows: &[
        row!(
            "number",
            Given {
                low: 1,
                high: MOST_PORT_NO
            },
            UnlessNumbered,
            OwnKey
        ),
        row!("name", One(Name), Never, OwnKey),
        row!("description", One(Name), Never, OwnName),
        row!("enabled", One(Flag), Never, On),
        row!("unicast_flood", One(Flag), Never, On),
        row!("opstatus_reconf", One(Flag), Never, On),
        row!("output_only", One(Flag), Never, Off),
        row!("hairpin", One(Flag), Never, Off),
        row!("permanent_learn", One(Flag), Never, Off),
        row!("native_vlan", One(VLAN_NAMED), Never, Nothing),
        row!("tagged_vlans", Several(VLAN_NAMED), Never, Nothing),
        row!("acl_in", One(Label), Never, Nothing),
        row!("acls_in", Several(Label), Never, Nothing),
        row!("max_hosts", One(number!(1, 16_384)), Never, Count(255)),
        row!("mirror", OneOrSeveral(PORT_NAMED), Never, Nothing),
        row!("stack", Map(PortStack), Never, Nothing),
    ],
    left_out: &[
        "acls_out",
        "dot1x",
        "dot1x_acl",
        "dot1x_mab",
        "lacp",
        "lacp_active",
        "lldp_beacon",
        "receive_lldp",
        "loop_protect",
        "loop_protect_external",
        "override_output_port",
        "restricted_bcast_arpnd",
        "coprocessor",
    ],
    ..NONE
};

const PORT_STACK: Table = Table {
    rows: &[
        row!("dp", One(Words), Always, Nothing),
        row!("port", One(PORT_NAMED), Always, Nothing),
    ],
    ..NONE
};

const VLAN: Table = Table {
    rows: &[
        row!(
            "vid",
            Given {
                low: 1,
                high: MOST_VID
            },
            UnlessNumbered,
            OwnKey
        ),
        row!("name", One(Name), Never, OwnKey),
        row!("description", One(Name), Never, OwnName),
        row!("acl_in", One(Label), Never, Nothing),
        row!("acls_in", Several(Label), Never, Nothing),
        row!(
            "faucet_mac",
            One(StationMac),
            Never,
            Spelled("0e:00:00:00:00:01")
        ),
        row!("faucet_vips", Several(Vip), Never, Nothing),
        row!("routes", Maps(RouteItem), Never, Nothing),
        row!("max_hosts", One(number!(1, 16_384)), Never, Count(255)),
        row!("unicast_flood", One(Flag), Never, On),
    ],
    left_out: &[
        "acls_out",
        "targeted_gw_resolution",
        "minimum_ip_size_check",
        "proactive_arp_limit",
        "proactive_nd_limit",
    ],
    ..NONE
};

const ROUTE_ITEM: Table = Table {
    rows: &[row!("route", Map(Route), Always, Nothing)],
    ..NONE
};

const ROUTE: Table = Table {
    rows: &[
        row!("ip_dst", One(Destination), Always, Nothing),
        row!("ip_gw", One(Gateway), Always, Nothing),
    ],
    ..NONE
};

const RULE_ITEM: Table = Table {
    rows: &[row!("rule", Map(Rule), Always, Nothing)],
    ..NONE
};

const RULE: Table = Table {
    rows: &[
        row!("actions", Map(Actions), Always, Nothing),
        row!("description", One(Words), Never, Nothing),
        asked!("eth_src", EthSrc),
        asked!("eth_dst", EthDst),
        asked!("eth_type", EthType),
        asked!("vlan_vid", VlanVid),
        asked!("vlan_pcp", VlanPcp),
        asked!("ip_proto", IpProto),
        asked!("ipv4_src", Ipv4Src),
        asked!("ipv4_dst", Ipv4Dst),
        asked!("tcp_src", TcpSrc),
        asked!("tcp_dst", TcpDst),
        asked!("udp_src", UdpSrc),
        asked!("udp_dst", UdpDst),
        asked!("icmpv4_type", Icmpv4Type),
        asked!("icmpv4_code", Icmpv4Code),
        asked!("arp_op", ArpOp),
        asked!("arp_spa", ArpSpa),
        asked!("arp_tpa", ArpTpa),
        asked!("ipv6_src", Ipv6Src),
        asked!("ipv6_dst", Ipv6Dst),
        asked!("icmpv6_type", Icmpv6Type),
        asked!("icmpv6_code", Icmpv6Code),
        asked!("ipv6_nd_target", Ipv6NdTarget),
    ],
    left_out: &["cookie", "in_port", "ip_dscp", "ip_ecn"],
    spellings: &[
        ("dl_src", "eth_src"),
        ("dl_dst", "eth_dst"),
        ("dl_type", "eth_type"),
        ("dl_vlan", "vlan_vid"),
        ("dl_vlan_pcp", "vlan_pcp"),
        ("nw_proto", "ip_proto"),
        ("nw_src", "ipv4_src"),
        ("nw_dst", "ipv4_dst"),
    ],
    unlisted: ConfCause::UnknownKey,
};

const ACTIONS: Table = Table {
    rows: &[
        row!("allow", One(Permission), Never, Off),
        row!("mirror", One(PORT_NAMED), Never, Nothing),
        row!("output", MapOrMaps(Output), Never, Nothing),
    ],
    left_out: &["meter", "ct", "force_port_vlan"],
    ..NONE
};

const OUTPUT: Table = Table {
    rows: &[
        row!("port", One(PORT_NAMED), Never, Nothing),
        row!("ports", Several(PORT_NAMED), Never, Nothing),
    ],
    left_out: &[
        "set_fields",
        "vlan_vid",
        "vlan_vids",
        "pop_vlans",
        "swap_vid",
        "failover",
        "tunnel",
    ],
    ..NONE
};

const ROUTER: Table = Table {
    rows: &[
        row!("vlans", Several(VLAN_NAMED), UnlessBgp, Nothing),
        row!("bgp", Map(Bgp), Never, Nothing),
    ],
    ..NONE
};

const BGP: Table = Table {
    rows: &[
        row!("as", One(number!(1, 65_535)), Always, Nothing),
        row!("neighbor_as", One(number!(1, 65_535)), Always, Nothing),
        row!("neighbor_addresses", Several(Words), Always, Nothing),
        row!("server_addresses", Several(Words), Always, Nothing),
        row!("routerid", One(Identifier), Always, Nothing),
        row!("vlan", One(VLAN_NAMED), Always, Nothing),
        row!("port", One(number!(1, 65_535)), Never, Nothing),
        row!("connect_mode", One(Passive), Never, Nothing),
    ],
    ..NONE
};

/// The keys of a map whose keys are names or numbers of the user's.
const NONE: Table = Table {
    rows: &[],
    left_out: &[],
    spellings: &[],
    unlisted: ConfCause::UnknownKey,
};

/// The keys of a map.
pub fn table_of(map: MapKind) -> Table
    ensures { seen_table result ≡ keys_of map }
{
    match map {
        MapKind::Top => TOP,
        MapKind::Datapath => DATAPATH,
        MapKind::DatapathStack => DATAPATH_STACK,
        MapKind::LldpBeacon => LLDP_BEACON,
        MapKind::Interface { .. } => INTERFACE,
        MapKind::PortStack => PORT_STACK,
        MapKind::Vlan { .. } => VLAN,
        MapKind::RouteItem => ROUTE_ITEM,
        MapKind::Route => ROUTE,
        MapKind::RuleItem => RULE_ITEM,
        MapKind::Rule => RULE,
        MapKind::Actions => ACTIONS,
        MapKind::Output => OUTPUT,
        MapKind::Router => ROUTER,
        MapKind::Bgp => BGP,
        MapKind::Datapaths
        | MapKind::Interfaces
        | MapKind::Vlans
        | MapKind::Acls
        | MapKind::Routers => NONE,
    }
}
