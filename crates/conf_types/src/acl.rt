use net_base::{Fields, Items, NoMemory, PortNo, Text, TryCopy};
use std::alloc::Global;

/// A port as an ACL names it.
#[derive(Debug, Drop)]
pub enum PortRef {
    No(PortNo),
    /// The name of an interface, which each datapath may give to another port.
    Name(Text),
}

/// Ports as an ACL names them, in the order of the text.
pub type PortRefs = Items<PortRef>;

/// A rule of an ACL. The first rule that hits a packet decides what becomes of it.
#[derive(Debug, Drop)]
pub struct Rule {
    /// What a packet has to agree with, as the fields of a match (OpenFlow 1.3, 7.2.3): ascending
    /// by their numbers, a VLAN with the bit 0x1000 that says that there is a tag. A field whose
    /// mask would be 0 isn't there.
    pub fields: Fields,
    /// Whether the packet goes on.
    pub allow: bool,
    /// The ports that the packet is sent to.
    pub output: PortRefs,
    /// The ports that get a copy of the packet.
    pub mirror: PortRefs,
}

/// Rules, in the order in which they are tried.
pub type Rules = Items<Rule>;

/// An ACL: a named list of rules. A packet that no rule hits is denied.
#[derive(Debug, Drop)]
pub struct Acl {
    pub name: Text,
    pub rules: Rules,
}

/// ACLs, ascending by the bytes of their names.
pub type Acls = Items<Acl>;

impl TryCopy for PortRef {
    fn copy(&self, alloc: Global) -> Result<PortRef, NoMemory> {
        match self {
            PortRef::No(no) => Ok(PortRef::No(*no)),
            PortRef::Name(name) => Ok(PortRef::Name(name.copy(alloc)?)),
        }
    }
}

impl TryCopy for Rule {
    fn copy(&self, alloc: Global) -> Result<Rule, NoMemory> {
        Ok(Rule {
            fields: self.fields.copy(alloc)?,
            allow: self.allow,
            output: self.output.copy(alloc)?,
            mirror: self.mirror.copy(alloc)?,
        })
    }
}

impl TryCopy for Acl {
    fn copy(&self, alloc: Global) -> Result<Acl, NoMemory> {
        Ok(Acl {
            name: self.name.copy(alloc)?,
            rules: self.rules.copy(alloc)?,
        })
    }
}
