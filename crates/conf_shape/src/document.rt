ghost use Rattle.std.specs.Prelude.{◌≡◌, None, IfOk, IfErr, OnOk};
ghost use Rattle.conf_shape.specs.Faults.{first_fault};
ghost use Rattle.conf_shape.specs.Raw.{raw_of};
ghost use Rattle.conf_shape.specs.Refused.{IsRefused};

use crate::faults::find_shape_fault;
use crate::raw::RawConf;
use crate::reads::{as_entries, entries_at, read_entries};
use crate::refused::ConfRefused;
use net_base::NoMemory;
use std::alloc::Global;
use yaml_tree::Tree;

fn read_raw(alloc: Global, tree: &Tree) -> Result<RawConf, NoMemory>
    ensures { IfOk result (λ raw. raw ≡ raw_of tree.now) }
{
    let pairs = as_entries(tree);
    Ok(RawConf {
        dps: read_entries(alloc, entries_at(pairs, "dps"))?,
        vlans: read_entries(alloc, entries_at(pairs, "vlans"))?,
        acls: read_entries(alloc, entries_at(pairs, "acls"))?,
        routers: read_entries(alloc, entries_at(pairs, "routers"))?,
    })
}

/// The raw configuration of a document of the right shape; its first fault, in the order of the
/// document, exactly where it has one.
pub fn shape(alloc: Global, tree: &Tree) -> Result<RawConf, ConfRefused>
    ensures right { OnOk result (first_fault tree.now ≡ None) }
    ensures raw { IfOk result (λ raw. raw ≡ raw_of tree.now) }
    ensures refused { IfErr result (IsRefused tree.now) }
{
    match find_shape_fault(alloc, tree) {
        Ok(None) => read_raw(alloc, tree).map_err(|_| ConfRefused::Memory),
        Ok(Some(fault)) => Err(ConfRefused::At(fault)),
        Err(_) => Err(ConfRefused::Memory),
    }
}
