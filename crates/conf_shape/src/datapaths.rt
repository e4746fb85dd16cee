ghost use Rattle.std.specs.Prelude.{◌≡◌, map, codes, IfOk};
ghost use Rattle.yaml_tree.specs.declared.tree.Pair.{Pair};
ghost use Rattle.yaml_tree.specs.declared.tree.Tree.{Tree};
ghost use Rattle.conf_shape.specs.Reads.{entries_at, text_at};
ghost use Rattle.conf_shape.specs.Sections.{key_text};
ghost use Rattle.conf_shape.specs.Raw.{is_given, acls_at, names_by, stack_end_of, port_flags, port_number, port_with, port_of_entry, drop_flags, datapath_id, stack_priority, lldp_interval, lldp, datapath_with, datapath_of_entry};

use crate::keys::key_text;
use crate::kinds::MapKind;
use crate::raw::{
    DropFlags, PortFlags, RawAclNames, RawDp, RawNames, RawPort, RawPorts, RawStackEnd,
};
use crate::reads::{
    Read, ReadEntry, as_entries, entries_at, flag_at, list_at, number_at, one_or_list_at,
    option_at, own_port_no, read_entries, text_at, u32_under, u64_under, value_at, words_at,
};
use conf_types::PortRef;
use net_base::{DpId, NoMemory, PortNo, Text};
use std::alloc::Global;
use yaml_tree::{Key, Pair, Tree};

const INTERFACE: MapKind = MapKind::Interface { number: None };

/// `acl_in` and `acls_in`.
pub fn read_acls(alloc: Global, pairs: &[Pair]) -> Result<RawAclNames, NoMemory>
    ensures { IfOk result (λ made. made ≡ acls_at pairs.now) }
{
    Ok(RawAclNames {
        one: option_at(alloc, pairs, "acl_in")?,
        list: option_at(alloc, pairs, "acls_in")?,
    })
}

fn text_or(
    alloc: Global,
    map: MapKind,
    pairs: &[Pair],
    name: &str,
    own: &str,
) -> Result<Text, NoMemory>
    ensures { IfOk result (λ made. made ≡ text_at map name.now own.now pairs.now) }
{
    Text::from_str(alloc, text_at(map, pairs, name, own))
}

/// What a map of this kind is called.
pub fn read_names(
    alloc: Global,
    map: MapKind,
    key: &Key,
    pairs: &[Pair],
) -> Result<RawNames, NoMemory>
    ensures { IfOk result (λ made. made ≡ names_by map (key_text key.now) pairs.now) }
{
    let key = key_text(alloc, key)?;
    let name = text_or(alloc, map, pairs, "name", key.as_str())?;
    let description = text_or(alloc, map, pairs, "description", name.as_str())?;
    Ok(RawNames {
        has_name: is_given(pairs, "name"),
        key,
        name,
        description,
    })
}

/// Whether a key is given.
pub fn is_given(pairs: &[Pair], name: &str) -> bool
    ensures { result ≡ is_given name.now pairs.now }
{
    value_at(pairs, name).is_some()
}

impl Read for RawStackEnd {
    ghost given_by = { stack_end_of };

    fn read(alloc: Global, tree: &Tree) -> Result<RawStackEnd, NoMemory> {
        let pairs = as_entries(tree);
        Ok(RawStackEnd {
            dp: Text::from_str(alloc, words_at(pairs, "dp"))?,
            port: match option_at(alloc, pairs, "port")? {
                Some(port) => port,
                None => PortRef::Name(Text::new(alloc)),
            },
        })
    }
}

fn port_flags(pairs: &[Pair]) -> PortFlags
    ensures { result ≡ port_flags pairs.now }
{
    PortFlags {
        enabled: flag_at(INTERFACE, pairs, "enabled"),
        unicast_flood: flag_at(INTERFACE, pairs, "unicast_flood"),
        opstatus_reconf: flag_at(INTERFACE, pairs, "opstatus_reconf"),
        output_only: flag_at(INTERFACE, pairs, "output_only"),
        hairpin: flag_at(INTERFACE, pairs, "hairpin"),
        permanent_learn: flag_at(INTERFACE, pairs, "permanent_learn"),
    }
}

/// The number of an interface; one without a number isn't accepted, whatever stands for it.
fn port_number(key: &Key, pairs: &[Pair]) -> PortNo
    ensures { result ≡ port_number key.now pairs.now }
{
    match own_port_no(key, value_at(pairs, "number")) {
        Some(no) => no,
        None => PortNo::new(1).unwrap(),
    }
}

fn read_port(alloc: Global, key: &Key, pairs: &[Pair]) -> Result<RawPort, NoMemory>
    ensures { IfOk result (λ made. made ≡ port_with key.now pairs.now) }
{
    Ok(RawPort {
        names: read_names(alloc, INTERFACE, key, pairs)?,
        has_number: is_given(pairs, "number"),
        no: port_number(key, pairs),
        flags: port_flags(pairs),
        native: option_at(alloc, pairs, "native_vlan")?,
        tagged: list_at(alloc, pairs, "tagged_vlans")?,
        acls: read_acls(alloc, pairs)?,
        max_hosts: number_at(INTERFACE, pairs, "max_hosts"),
        mirror: one_or_list_at(alloc, pairs, "mirror")?,
        stack: option_at(alloc, pairs, "stack")?,
    })
}

impl ReadEntry for RawPort {
    ghost given_by = { port_of_entry };

    fn read(alloc: Global, pair: &Pair) -> Result<RawPort, NoMemory> {
        read_port(alloc, &pair.key, as_entries(&pair.value))
    }
}

fn drop_flags(pairs: &[Pair]) -> DropFlags
    ensures { result ≡ drop_flags pairs.now }
{
    DropFlags {
        spoofed: flag_at(MapKind::Datapath, pairs, "drop_spoofed_faucet_mac"),
        broadcast: flag_at(MapKind::Datapath, pairs, "drop_broadcast_source_address"),
        bpdu: flag_at(MapKind::Datapath, pairs, "drop_bpdu"),
        lldp: flag_at(MapKind::Datapath, pairs, "drop_lldp"),
    }
}

/// The identifier of a datapath; one without isn't accepted, whatever stands for it.
fn datapath_id(pairs: &[Pair]) -> DpId
    ensures { result ≡ datapath_id pairs.now }
{
    DpId(u64_under(pairs, "dp_id").unwrap_or(0))
}

fn stack_priority(pairs: &[Pair]) -> Option<u32>
    ensures { result ≡ stack_priority pairs.now }
{
    u32_under(entries_at(pairs, "stack"), "priority")
}

fn lldp_interval(tree: &Tree) -> u32
    ensures { result ≡ lldp_interval tree.now }
{
    number_at(MapKind::LldpBeacon, as_entries(tree), "send_interval")
}

fn lldp(pairs: &[Pair]) -> Option<u32>
    ensures { result ≡ lldp pairs.now }
{
    match value_at(pairs, "lldp_beacon") {
        Some(tree) => Some(lldp_interval(tree)),
        None => None,
    }
}

fn read_ports(alloc: Global, pairs: &[Pair]) -> Result<RawPorts, NoMemory>
    ensures { IfOk result (λ made. made ≡ map port_of_entry (entries_at (codes "interfaces") pairs.now)) }
{
    read_entries(alloc, entries_at(pairs, "interfaces"))
}

fn read_datapath(alloc: Global, key: &Key, pairs: &[Pair]) -> Result<RawDp, NoMemory>
    ensures { IfOk result (λ made. made ≡ datapath_with key.now pairs.now) }
{
    let map = MapKind::Datapath;
    Ok(RawDp {
        names: read_names(alloc, map, key, pairs)?,
        id: datapath_id(pairs),
        hardware: text_or(alloc, map, pairs, "hardware", "")?,
        timeout: number_at(map, pairs, "timeout"),
        arp_timeout: number_at(map, pairs, "arp_neighbor_timeout"),
        stack_priority: stack_priority(pairs),
        lldp: lldp(pairs),
        drops: drop_flags(pairs),
        ports: read_ports(alloc, pairs)?,
    })
}

impl ReadEntry for RawDp {
    ghost given_by = { datapath_of_entry };

    fn read(alloc: Global, pair: &Pair) -> Result<RawDp, NoMemory> {
        read_datapath(alloc, &pair.key, as_entries(&pair.value))
    }
}
