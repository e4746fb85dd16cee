//! The interfaces of a datapath, to be looked up.

ghost use Rattle.std.specs.Prelude.{◌≡◌, IfOk};
ghost use Rattle.conf_resolve.specs.Resolved.{number_named};

use crate::by_name::{Named, add_first};
use crate::seen::see_number;
use conf_shape::RawDp;
use conf_types::PortRef;
use net_base::{NoMemory, PortNo};
use std::alloc::Global;
use std::collections::{BTreeMap, BTreeSet};
use std::marker::Model;

/// The interfaces of a datapath, to be looked up by a number or a name. Contracts see the datapath.
#[derive(Drop)]
pub struct NamedPorts<'a> {
    dp: &'a RawDp,
    numbers: BTreeSet<u128>,
    names: Named<PortNo>,
}

impl<'a> Model for NamedPorts<'a> {
    ghost use Rattle.conf_shape.specs.declared.raw.RawDp.{RawDp};
    ghost use Rattle.conf_resolve.specs.Indexed.{HavePorts};

    ghost Value = { RawDp };

    ghost view = { λ p. p.dp.now };

    ghost invariant = { λ p. HavePorts p.dp.now.ports p.numbers p.names };
}

impl<'a> NamedPorts<'a> {
    /// The interfaces of this datapath; the only error is that memory runs out.
    pub fn of(alloc: Global, dp: &'a RawDp) -> Result<NamedPorts<'a>, NoMemory>
        ensures { IfOk result (λ made. made ≡ dp.now) }
    {
        let mut numbers = BTreeSet::new(alloc);
        let mut names = BTreeMap::new(alloc);
        for port in dp.ports.as_slice() {
            see_number(&mut numbers, u128::from(port.no.get()))?;
            add_first(alloc, &mut names, &port.names.name, port.no)?;
        }
        Ok(NamedPorts { dp, numbers, names })
    }

    /// The datapath.
    pub fn dp(&self) -> &'a RawDp
        ensures { result.now ≡ self.now }
    {
        self.dp
    }

    /// The number of the interface that is named; `None` exactly where there is none.
    pub fn number(&self, name: &PortRef) -> Option<PortNo>
        ensures { result ≡ number_named self.now name.now }
    {
        match name {
            PortRef::No(no) => {
                if self.numbers.contains(&u128::from(no.get())) {
                    Some(*no)
                } else {
                    None
                }
            }
            PortRef::Name(name) => self.names.get(name.as_str()).copied(),
        }
    }
}
