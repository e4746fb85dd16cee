//! Copies of a raw configuration and its parts.

use crate::raw::{
    OneOrList, RawAcl, RawAclNames, RawBgp, RawDp, RawField, RawNames, RawOutput, RawPort,
    RawRouter, RawRule, RawStackEnd, RawVlan, VlanRef,
};
use net_base::{NoMemory, TryCopy};
use std::alloc::Global;

impl TryCopy for VlanRef {
    fn copy(&self, alloc: Global) -> Result<VlanRef, NoMemory> {
        match self {
            VlanRef::Vid(vid) => Ok(VlanRef::Vid(*vid)),
            VlanRef::Name(name) => Ok(VlanRef::Name(name.copy(alloc)?)),
        }
    }
}

impl<T: TryCopy + Drop> TryCopy for OneOrList<T> {
    fn copy(&self, alloc: Global) -> Result<OneOrList<T>, NoMemory> {
        match self {
            OneOrList::One(item) => Ok(OneOrList::One(item.copy(alloc)?)),
            OneOrList::List(items) => Ok(OneOrList::List(items.copy(alloc)?)),
        }
    }
}

impl TryCopy for RawNames {
    fn copy(&self, alloc: Global) -> Result<RawNames, NoMemory> {
        Ok(RawNames {
            key: self.key.copy(alloc)?,
            has_name: self.has_name,
            name: self.name.copy(alloc)?,
            description: self.description.copy(alloc)?,
        })
    }
}

impl TryCopy for RawAclNames {
    fn copy(&self, alloc: Global) -> Result<RawAclNames, NoMemory> {
        let one = match &self.one {
            Some(name) => Some(name.copy(alloc)?),
            None => None,
        };
        let list = match &self.list {
            Some(names) => Some(names.copy(alloc)?),
            None => None,
        };
        Ok(RawAclNames { one, list })
    }
}

impl TryCopy for RawStackEnd {
    fn copy(&self, alloc: Global) -> Result<RawStackEnd, NoMemory> {
        Ok(RawStackEnd {
            dp: self.dp.copy(alloc)?,
            port: self.port.copy(alloc)?,
        })
    }
}

impl TryCopy for RawPort {
    fn copy(&self, alloc: Global) -> Result<RawPort, NoMemory> {
        let native = match &self.native {
            Some(vlan) => Some(vlan.copy(alloc)?),
            None => None,
        };
        let stack = match &self.stack {
            Some(end) => Some(end.copy(alloc)?),
            None => None,
        };
        Ok(RawPort {
            names: self.names.copy(alloc)?,
            has_number: self.has_number,
            no: self.no,
            flags: self.flags,
            native,
            tagged: self.tagged.copy(alloc)?,
            acls: self.acls.copy(alloc)?,
            max_hosts: self.max_hosts,
            mirror: self.mirror.copy(alloc)?,
            stack,
        })
    }
}

impl TryCopy for RawDp {
    fn copy(&self, alloc: Global) -> Result<RawDp, NoMemory> {
        Ok(RawDp {
            names: self.names.copy(alloc)?,
            id: self.id,
            hardware: self.hardware.copy(alloc)?,
            timeout: self.timeout,
            arp_timeout: self.arp_timeout,
            stack_priority: self.stack_priority,
            lldp: self.lldp,
            drops: self.drops,
            ports: self.ports.copy(alloc)?,
        })
    }
}

impl TryCopy for RawVlan {
    fn copy(&self, alloc: Global) -> Result<RawVlan, NoMemory> {
        Ok(RawVlan {
            names: self.names.copy(alloc)?,
            has_vid: self.has_vid,
            vid: self.vid,
            acls: self.acls.copy(alloc)?,
            mac: self.mac,
            vips: self.vips.copy(alloc)?,
            routes: self.routes.copy(alloc)?,
            max_hosts: self.max_hosts,
            unicast_flood: self.unicast_flood,
        })
    }
}

impl TryCopy for RawField {
    fn copy(&self, alloc: Global) -> Result<RawField, NoMemory> {
        Ok(RawField {
            key: self.key.copy(alloc)?,
            field: self.field,
        })
    }
}

impl TryCopy for RawOutput {
    fn copy(&self, alloc: Global) -> Result<RawOutput, NoMemory> {
        let port = match &self.port {
            Some(port) => Some(port.copy(alloc)?),
            None => None,
        };
        Ok(RawOutput {
            port,
            ports: self.ports.copy(alloc)?,
        })
    }
}

impl TryCopy for RawRule {
    fn copy(&self, alloc: Global) -> Result<RawRule, NoMemory> {
        let mirror = match &self.mirror {
            Some(port) => Some(port.copy(alloc)?),
            None => None,
        };
        Ok(RawRule {
            fields: self.fields.copy(alloc)?,
            allow: self.allow,
            mirror,
            output: self.output.copy(alloc)?,
        })
    }
}

impl TryCopy for RawAcl {
    fn copy(&self, alloc: Global) -> Result<RawAcl, NoMemory> {
        Ok(RawAcl {
            name: self.name.copy(alloc)?,
            rules: self.rules.copy(alloc)?,
        })
    }
}

impl TryCopy for RawBgp {
    fn copy(&self, alloc: Global) -> Result<RawBgp, NoMemory> {
        Ok(RawBgp {
            our_as: self.our_as,
            neighbor_as: self.neighbor_as,
            routerid: self.routerid,
            vlan: self.vlan.copy(alloc)?,
        })
    }
}

impl TryCopy for RawRouter {
    fn copy(&self, alloc: Global) -> Result<RawRouter, NoMemory> {
        let bgp = match &self.bgp {
            Some(bgp) => Some(bgp.copy(alloc)?),
            None => None,
        };
        Ok(RawRouter {
            name: self.name.copy(alloc)?,
            vlans: self.vlans.copy(alloc)?,
            bgp,
        })
    }
}
