//! What items stand for, to be looked up by their names: of each name the first item counts.

ghost use Rattle.std.specs.Prelude.{◌≡◌, ℕ, List, Option, if◌then◌else◌, IfOk, OnOk};
ghost use Rattle.std.specs.BTreeMap.{get_by_text};
ghost use Rattle.std.specs.Option.{option_or};
ghost use Rattle.conf_types.specs.Lists.{is_same};
ghost use Rattle.conf_resolve.specs.Indexed.{LeadToFirst};

use crate::ordered::PlacedVlan;
use net_base::{NoMemory, Text, Vid};
use std::alloc::Global;
use std::collections::BTreeMap;

/// Values by names.
pub(crate) type Named<V> = BTreeMap<String, V>;

/// Adds a value under a name, where none is there.
pub(crate) fn add_first<V: Drop>(
    alloc: Global,
    values: &mut Named<V>,
    name: &Text,
    value: V,
) -> Result<(), NoMemory>
    ensures { OnOk result ((text : List ℕ) → get_by_text values.new text ≡ option_or (get_by_text values.old text) (if is_same name.now text then Some value else None)) }
{
    let name = name.as_str();
    if values.contains_key(name) {
        return Ok(());
    }
    let key = String::from_str(alloc, name)?;
    values.insert(key, value)?;
    Ok(())
}

/// The number of the first VLAN of each name.
pub(crate) fn first_vids(alloc: Global, vlans: &[PlacedVlan]) -> Result<Named<Vid>, NoMemory>
    ensures { IfOk result (λ vids. LeadToFirst (λ v. v.vlan.names.name) (λ v. v.vlan.vid) vlans.now vids) }
{
    let mut vids = BTreeMap::new(alloc);
    for placed in vlans {
        add_first(alloc, &mut vids, &placed.vlan.names.name, placed.vlan.vid)?;
    }
    Ok(vids)
}
