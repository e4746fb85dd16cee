//! A configuration as it is written: names that aren't resolved yet, what stands for keys that
//! aren't given, and what leads back to each value's place in the document.

use conf_types::{Nets, PortRef, PortRefs, Routes};
use net_base::{DpId, Field, Ip4, Items, Mac, Names, PortNo, Text, Vid};

/// A VLAN as it is written: its number or its name.
#[derive(Drop)]
pub enum VlanRef {
    Vid(Vid),
    Name(Text),
}

/// VLANs as they are written, in the order of the text.
pub type VlanRefs = Items<VlanRef>;

/// A value that stands alone, or a list of such values, each at its place.
#[derive(Drop)]
pub enum OneOrList<T> {
    One(T),
    /// Also where nothing is given.
    List(Items<T>),
}

/// The ACLs of an interface or a VLAN, a number by its digits.
#[derive(Drop)]
pub struct RawAclNames {
    /// `acl_in`, where it is given.
    pub one: Option<Text>,
    /// `acls_in`, where it is given.
    pub list: Option<Names>,
}

/// What a datapath, an interface or a VLAN is called.
#[derive(Drop)]
pub struct RawNames {
    /// Its key in the document, a number by its digits.
    pub key: Text,
    /// Whether `name` is given.
    pub has_name: bool,
    pub name: Text,
    pub description: Text,
}

/// The far end of a stack link: `stack` of an interface.
#[derive(Drop)]
pub struct RawStackEnd {
    pub dp: Text,
    pub port: PortRef,
}

/// The flags of an interface.
#[derive(Clone, Copy)]
pub struct PortFlags {
    pub enabled: bool,
    pub unicast_flood: bool,
    pub opstatus_reconf: bool,
    pub output_only: bool,
    pub hairpin: bool,
    pub permanent_learn: bool,
}

/// An interface.
#[derive(Drop)]
pub struct RawPort {
    pub names: RawNames,
    /// Whether `number` is given.
    pub has_number: bool,
    pub no: PortNo,
    pub flags: PortFlags,
    pub native: Option<VlanRef>,
    pub tagged: VlanRefs,
    pub acls: RawAclNames,
    pub max_hosts: u32,
    pub mirror: OneOrList<PortRef>,
    pub stack: Option<RawStackEnd>,
}

/// Interfaces, in the order of the text.
pub type RawPorts = Items<RawPort>;

/// What a datapath drops.
#[derive(Clone, Copy)]
pub struct DropFlags {
    pub spoofed: bool,
    pub broadcast: bool,
    pub bpdu: bool,
    pub lldp: bool,
}

/// A datapath.
#[derive(Drop)]
pub struct RawDp {
    pub names: RawNames,
    pub id: DpId,
    pub hardware: Text,
    pub timeout: u32,
    pub arp_timeout: u32,
    pub stack_priority: Option<u32>,
    /// `send_interval` of `lldp_beacon`, where that is given.
    pub lldp: Option<u32>,
    pub drops: DropFlags,
    pub ports: RawPorts,
}

/// Datapaths, in the order of the text.
pub type RawDps = Items<RawDp>;

/// A VLAN.
#[derive(Drop)]
pub struct RawVlan {
    pub names: RawNames,
    /// Whether `vid` is given.
    pub has_vid: bool,
    pub vid: Vid,
    pub acls: RawAclNames,
    pub mac: Mac,
    /// `faucet_vips`, each at its place.
    pub vips: Nets,
    /// `routes`, each at its place.
    pub routes: Routes,
    pub max_hosts: u32,
    pub unicast_flood: bool,
}

/// VLANs, in the order of the text.
pub type RawVlans = Items<RawVlan>;

/// A field of a rule.
#[derive(Drop)]
pub struct RawField {
    /// The key as it is spelled in the rule.
    pub key: Text,
    pub field: Field,
}

/// Fields of a rule, in the order of the reference. A field that leaves all its bits out isn't there.
pub type RawFields = Items<RawField>;

/// One map of `output`.
#[derive(Drop)]
pub struct RawOutput {
    pub port: Option<PortRef>,
    pub ports: PortRefs,
}

/// A rule of an ACL.
#[derive(Drop)]
pub struct RawRule {
    pub fields: RawFields,
    pub allow: bool,
    pub mirror: Option<PortRef>,
    pub output: OneOrList<RawOutput>,
}

/// Rules, each at its place.
pub type RawRules = Items<RawRule>;

/// An ACL.
#[derive(Drop)]
pub struct RawAcl {
    /// Its key under `acls`, a number by its digits.
    pub name: Text,
    pub rules: RawRules,
}

/// ACLs, in the order of the text.
pub type RawAcls = Items<RawAcl>;

/// The BGP peer of a router: `bgp`.
#[derive(Drop)]
pub struct RawBgp {
    pub our_as: u16,
    pub neighbor_as: u16,
    pub routerid: Ip4,
    pub vlan: VlanRef,
}

/// A router.
#[derive(Drop)]
pub struct RawRouter {
    /// Its key under `routers`, a number by its digits.
    pub name: Text,
    /// `vlans`, each at its place.
    pub vlans: VlanRefs,
    pub bgp: Option<RawBgp>,
}

/// Routers, in the order of the text.
pub type RawRouters = Items<RawRouter>;

/// A configuration of the right shape.
#[derive(Drop)]
pub struct RawConf {
    pub dps: RawDps,
    pub vlans: RawVlans,
    pub acls: RawAcls,
    pub routers: RawRouters,
}
