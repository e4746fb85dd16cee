ghost use Rattle.std.specs.Prelude.{◌≡◌, ◌++◌, map, vec_len, IfOk, OnOk};
ghost use Rattle.conf_types.specs.Count.{counted};
ghost use Rattle.vlan_compile.specs.Vlans.{tagged_vlans, vlans_of};
ghost use Rattle.vlan_compile.specs.Counts.{missed_if, miss_if, miss_by};
ghost use Rattle.vlan_compile.specs.Misses.{misses};

use crate::learned::{Learned, find_learned};
use crate::vlans::native_vlan;
use conf_types::{Conf, Dp, HostRec, Port, Tally, Vlan};
use net_base::NoMemory;
use of_match::{Actions, Entries, Entry, Instrs};
use plan_base::{Table, in_port, leads_to, make_entry, to_controller, vid_field};
use std::alloc::Global;

/// What becomes of a packet whose source isn't known.
fn missed(alloc: Global, keeps: bool, is_full: bool) -> Result<Instrs, NoMemory>
    ensures { IfOk result (λ made. made ≡ missed_if keeps is_full) }
{
    let mut actions = Actions::new(alloc);
    if keeps {
        return leads_to(alloc, actions, None);
    }
    if !is_full {
        actions.push(to_controller())?;
    }
    leads_to(alloc, actions, Some(Table::Ipv4Route))
}

/// The entry of a VLAN of a port: whether the port keeps the host that it has there, and whether no further
/// host may be learned.
pub(crate) fn make_miss(
    alloc: Global,
    port: &Port,
    vlan: &Vlan,
    keeps: bool,
    is_full: bool,
) -> Result<Entry, NoMemory>
    ensures { IfOk result (λ made. made ≡ miss_if port.now vlan.now keeps is_full) }
{
    let fields = [in_port(port.no), vid_field(vlan.vid)];
    let instrs = missed(alloc, keeps, is_full)?;
    make_entry(alloc, Table::Source, 10, &fields, instrs)
}

fn learned_miss(
    alloc: Global,
    learned: &Learned,
    port: &Port,
    vlan: &Vlan,
) -> Result<Entry, NoMemory>
    requires { vec_len learned.now.in_group ≡ 4096 }
    ensures { IfOk result (λ made. made ≡ miss_by learned.now port.now vlan.now) }
{
    let keeps = port.permanent_learn && learned.has_host(vlan.vid);
    make_miss(alloc, port, vlan, keeps, learned.is_full(port, vlan))
}

/// The entries of the VLANs whose packets have a tag at the port.
fn push_tagged(
    alloc: Global,
    made: &mut Entries,
    conf: &Conf,
    learned: &Learned,
    port: &Port,
) -> Result<(), NoMemory>
    requires { vec_len learned.now.in_group ≡ 4096 }
    ensures { OnOk result (made.new ≡ made.old ++ map (miss_by learned.now port.now) (tagged_vlans conf.now port.now)) }
{
    for vid in port.tagged.as_slice() {
        if let Some(vlan) = conf.vlan(*vid) {
            made.push(learned_miss(alloc, learned, port, vlan)?)?;
        }
    }
    Ok(())
}

fn make_misses(
    alloc: Global,
    conf: &Conf,
    learned: &Learned,
    port: &Port,
) -> Result<Entries, NoMemory>
    requires { vec_len learned.now.in_group ≡ 4096 }
    ensures { IfOk result (λ made. made ≡ map (miss_by learned.now port.now) (vlans_of conf.now port.now)) }
{
    let mut made = Entries::new(alloc);
    if let Some(vlan) = native_vlan(conf, port) {
        made.push(learned_miss(alloc, learned, port, vlan)?)?;
    }
    push_tagged(alloc, &mut made, conf, learned, port)?;
    Ok(made)
}

/// The flow entries of table 3 for an interface of a datapath, at priority 10: what becomes in each of its
/// VLANs of a packet whose source isn't known there. `hosts` are all that were learned. One unit of work
/// is counted.
#[tactic(auto, using(crate::proofs::CountLemmas::misses_are))]
pub fn miss_entries<T: Tally>(
    alloc: Global,
    conf: &Conf,
    dp: &Dp,
    port: &Port,
    hosts: &[HostRec],
    units: &mut T,
) -> Result<Entries, NoMemory>
    ensures entries { IfOk result (λ made. made ≡ misses conf.now dp.now port.now hosts.now) }
    ensures unit { T.count units.new ≡ counted (T.count units.old) }
{
    units.tick();
    if !port.is_accepting() {
        return Ok(Entries::new(alloc));
    }
    let learned = find_learned(alloc, conf, dp, port, hosts)?;
    make_misses(alloc, conf, &learned, port)
}
