ghost use Rattle.std.specs.Prelude.{◌≡◌};
ghost use Rattle.conf_types.specs.Membership.{is_edge, is_stack, is_accepting, is_native_in, is_tagged_in, is_edge_member, is_mirror_of, member_of};

use crate::vlan::Vids;
use net_base::{DpId, Items, Names, NoMemory, PortNo, Text, TryCopy, Vid};
use std::alloc::Global;

/// A list of port numbers.
pub type PortNos = Items<PortNo>;

/// The far end of a stack link: a port of another datapath.
#[derive(Clone, Copy, Debug, PartialEq, Eq)]
pub struct StackEnd {
    pub dp: DpId,
    pub port: PortNo,
}

/// How an interface belongs to a VLAN.
#[derive(Clone, Copy, Debug, PartialEq, Eq)]
pub enum Member {
    /// Packets of the VLAN have no tag there.
    Native,
    /// Packets of the VLAN have a tag there.
    Tagged,
    /// A stack port, which carries every VLAN with a tag.
    Stack,
    None,
}

/// An interface of a datapath.
#[derive(Debug, Drop)]
pub struct Port {
    pub no: PortNo,
    pub name: Text,
    pub description: Text,
    pub enabled: bool,
    /// The VLAN of packets without a tag.
    pub native: Option<Vid>,
    /// The VLANs of packets with a tag, as they are written.
    pub tagged: Vids,
    /// The names of the ACLs whose rules are tried, in order, on packets that come in.
    pub acls: Names,
    /// Packets that come in are dropped.
    pub output_only: bool,
    /// A packet may leave by the port that it came in by.
    pub hairpin: bool,
    /// Packets to an address that isn't known are sent here too.
    pub unicast_flood: bool,
    /// The first host that is learned here in a VLAN stays, and never moves.
    pub permanent_learn: bool,
    /// The port's state as the switch tells it counts.
    pub opstatus_reconf: bool,
    /// How many hosts are learned here, 1 to 16,384.
    pub max_hosts: u32,
    /// The ports whose packets are copied to this one, each once.
    pub mirror: PortNos,
    /// The far end, where the interface is an end of a stack link.
    pub stack: Option<StackEnd>,
}

/// Interfaces, ascending by their numbers.
pub type Ports = Items<Port>;

/// A datapath: one switch.
#[derive(Debug, Drop)]
pub struct Dp {
    pub id: DpId,
    pub name: Text,
    pub description: Text,
    pub hardware: Text,
    /// Seconds after which a host that wasn't heard is stale, 1 to 604,800.
    pub timeout: u32,
    /// Seconds after which a neighbour is asked again, 1 to 604,800.
    pub arp_timeout: u32,
    /// Where the datapath has one: the least priority of a stack is its root's.
    pub stack_priority: Option<u32>,
    /// Packets whose source is the address of a VLAN's gateway are dropped.
    pub drop_spoofed: bool,
    /// Packets whose source is the broadcast address are dropped.
    pub drop_broadcast: bool,
    /// Packets of the spanning tree protocols are dropped.
    pub drop_bpdu: bool,
    /// LLDP packets are dropped.
    pub drop_lldp: bool,
    /// Seconds between two probes of a stack link, 1 to 300, where links are probed.
    pub lldp: Option<u32>,
    pub ports: Ports,
}

/// Datapaths, ascending by the bytes of their names.
pub type Dps = Items<Dp>;

impl Port {
    /// Whether it is an edge port: an enabled interface that is no end of a stack link and mirrors
    /// no port.
    pub fn is_edge(&self) -> bool
        ensures { result ≡ is_edge self.now }
    {
        self.enabled && self.stack.is_none() && self.mirror.is_empty()
    }

    /// Whether it is an enabled end of a stack link.
    pub fn is_stack(&self) -> bool
        ensures { result ≡ is_stack self.now }
    {
        self.enabled && self.stack.is_some()
    }

    /// Whether it is an edge port that takes packets in.
    pub fn is_accepting(&self) -> bool
        ensures { result ≡ is_accepting self.now }
    {
        self.is_edge() && !self.output_only
    }

    /// How it belongs to a VLAN of its configuration.
    pub fn member_of(&self, vid: Vid) -> Member
        ensures { result ≡ member_of self.now vid }
    {
        if self.is_stack() {
            Member::Stack
        } else if !self.is_edge() {
            Member::None
        } else if self.is_native_in(vid) {
            Member::Native
        } else if self.is_tagged_in(vid) {
            Member::Tagged
        } else {
            Member::None
        }
    }

    /// Whether packets of the VLAN have no tag there.
    pub fn is_native_in(&self, vid: Vid) -> bool
        ensures { result ≡ is_native_in self.now vid }
    {
        match self.native {
            Some(native) => native.get() == vid.get(),
            None => false,
        }
    }

    /// Whether packets of the VLAN have a tag there.
    pub fn is_tagged_in(&self, vid: Vid) -> bool
        ensures { result ≡ is_tagged_in self.now vid }
    {
        self.tagged
            .as_slice()
            .iter()
            .any(|tagged| tagged.get() == vid.get())
    }

    /// Whether it is an edge port of the VLAN.
    pub fn is_edge_member(&self, vid: Vid) -> bool
        ensures { result ≡ is_edge_member self.now vid }
    {
        self.is_edge() && (self.is_native_in(vid) || self.is_tagged_in(vid))
    }

    /// Whether it copies what the port with this number takes in and sends.
    pub fn is_mirror_of(&self, no: PortNo) -> bool
        ensures { result ≡ is_mirror_of self.now no }
    {
        self.mirror
            .as_slice()
            .iter()
            .any(|mirrored| mirrored.get() == no.get())
    }
}

impl TryCopy for StackEnd {
    fn copy(&self, _alloc: Global) -> Result<StackEnd, NoMemory> {
        Ok(*self)
    }
}

impl TryCopy for Port {
    fn copy(&self, alloc: Global) -> Result<Port, NoMemory> {
        Ok(Port {
            no: self.no,
            name: self.name.copy(alloc)?,
            description: self.description.copy(alloc)?,
            enabled: self.enabled,
            native: self.native,
            tagged: self.tagged.copy(alloc)?,
            acls: self.acls.copy(alloc)?,
            output_only: self.output_only,
            hairpin: self.hairpin,
            unicast_flood: self.unicast_flood,
            permanent_learn: self.permanent_learn,
            opstatus_reconf: self.opstatus_reconf,
            max_hosts: self.max_hosts,
            mirror: self.mirror.copy(alloc)?,
            stack: self.stack,
        })
    }
}

impl TryCopy for Dp {
    fn copy(&self, alloc: Global) -> Result<Dp, NoMemory> {
        Ok(Dp {
            id: self.id,
            name: self.name.copy(alloc)?,
            description: self.description.copy(alloc)?,
            hardware: self.hardware.copy(alloc)?,
            timeout: self.timeout,
            arp_timeout: self.arp_timeout,
            stack_priority: self.stack_priority,
            drop_spoofed: self.drop_spoofed,
            drop_broadcast: self.drop_broadcast,
            drop_bpdu: self.drop_bpdu,
            drop_lldp: self.drop_lldp,
            lldp: self.lldp,
            ports: self.ports.copy(alloc)?,
        })
    }
}
