//! The datapaths of a configuration in order, to be looked up.

ghost use Rattle.std.specs.Prelude.{◌≡◌, IfOk};
ghost use Rattle.conf_resolve.specs.Indexed.{LeadToFirst};
ghost use Rattle.conf_resolve.specs.Resolved.{far_end};

use crate::by_name::{Named, add_first};
use crate::named_ports::NamedPorts;
use crate::ordered::OrderedConf;
use conf_shape::{RawDp, RawStackEnd};
use conf_types::StackEnd;
use net_base::NoMemory;
use std::alloc::Global;
use std::collections::BTreeMap;
use std::marker::Model;

/// The datapaths of a configuration in order, to be looked up by a name, each with its interfaces.
/// Contracts see their list.
#[derive(Drop)]
pub struct NamedDps<'a> {
    dps: &'a [RawDp],
    names: Named<NamedPorts<'a>>,
}

impl<'a> Model for NamedDps<'a> {
    ghost use Rattle.std.specs.Prelude.{List};
    ghost use Rattle.conf_shape.specs.declared.raw.RawDp.{RawDp};
    ghost use Rattle.conf_resolve.specs.Indexed.{LeadToFirst};

    ghost Value = { List RawDp };

    ghost view = { λ p. p.dps.now };

    ghost invariant = { λ p. LeadToFirst (λ d. d.names.name) (λ d. d) p.dps.now p.names };
}

/// The first datapath of each name.
fn first_dps<'a>(alloc: Global, dps: &'a [RawDp]) -> Result<Named<NamedPorts<'a>>, NoMemory>
    ensures { IfOk result (λ names. LeadToFirst (λ d. d.names.name) (λ d. d) dps.now names) }
{
    let mut names = BTreeMap::new(alloc);
    for dp in dps {
        let ports = NamedPorts::of(alloc, dp)?;
        add_first(alloc, &mut names, &dp.names.name, ports)?;
    }
    Ok(names)
}

impl<'a> NamedDps<'a> {
    /// The datapaths of this configuration; the only error is that memory runs out.
    pub fn of(alloc: Global, conf: &'a OrderedConf) -> Result<NamedDps<'a>, NoMemory>
        ensures { IfOk result (λ made. made ≡ conf.now.dps) }
    {
        let dps = conf.dps.as_slice();
        let names = first_dps(alloc, dps)?;
        Ok(NamedDps { dps, names })
    }

    /// The far end of a stack link that is named; `None` exactly where there is no such datapath or
    /// interface.
    pub fn far_end(&self, end: &RawStackEnd) -> Option<StackEnd>
        ensures { result ≡ far_end self.now end.now }
    {
        let ports = self.names.get(end.dp.as_str())?;
        let port = ports.number(&end.port)?;
        Some(StackEnd {
            dp: ports.dp().id,
            port,
        })
    }
}
