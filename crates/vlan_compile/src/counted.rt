//! Sources that aren't known, by counts of the hosts.

ghost use Rattle.std.specs.Prelude.{◌≡◌, ◌&&◌, ◌||◌, ◌++◌, map, IfOk, OnOk};
ghost use Rattle.conf_types.specs.Count.{counted};
ghost use Rattle.conf_types.specs.Groups.{group_of};
ghost use Rattle.conf_types.specs.State.{is_port_full, is_vlan_full, is_table_full};
ghost use Rattle.vlan_compile.specs.Vlans.{tagged_vlans, vlans_of};
ghost use Rattle.vlan_compile.specs.Misses.{has_host, is_full, miss, misses};

use crate::misses::make_miss;
use crate::vlans::native_vlan;
use conf_types::{Conf, Dp, MOST_HOSTS, Port, Tally, Vlan};
use host_list::CountsHosts;
use net_base::{DpId, NoMemory};
use of_match::{Entries, Entry};
use std::alloc::Global;

fn keeps_host<C: CountsHosts>(dp: &Dp, port: &Port, vlan: &Vlan, hosts: &C) -> bool
    ensures { result ≡ (port.now.permanent_learn && has_host (C.hosts hosts.now) dp.now.id port.now.no vlan.now.vid) }
{
    port.permanent_learn && 0 < hosts.in_vlan_at(dp.id, port.no, vlan.vid)
}

fn is_port_full<C: CountsHosts>(dp: &Dp, port: &Port, hosts: &C) -> bool
    ensures { result ≡ is_port_full (C.hosts hosts.now) dp.now.id port.now }
{
    port.max_hosts as usize <= hosts.at_port(dp.id, port.no)
}

fn is_vlan_full<C: CountsHosts>(conf: &Conf, group: DpId, vlan: &Vlan, hosts: &C) -> bool
    ensures { result ≡ is_vlan_full conf.now (C.hosts hosts.now) group vlan.now }
{
    vlan.max_hosts as usize <= hosts.in_vlan(conf, group, vlan.vid)
}

fn is_table_full<C: CountsHosts>(hosts: &C) -> bool
    ensures { result ≡ is_table_full (C.hosts hosts.now) }
{
    MOST_HOSTS <= hosts.in_all()
}

/// An interface of a datapath, the number of the datapath's group, and the counts of the hosts.
#[derive(Drop)]
struct Place<'a, C> {
    conf: &'a Conf,
    dp: &'a Dp,
    group: DpId,
    port: &'a Port,
    hosts: &'a C,
    ghost right: { group ≡ group_of conf.now dp.now.id },
}

impl<'a, C: CountsHosts> Place<'a, C> {
    fn is_group_full(&self, vlan: &Vlan) -> bool
        ensures { result ≡ is_vlan_full self.now.conf.now (C.hosts self.now.hosts.now) (group_of self.now.conf.now self.now.dp.now.id) vlan.now }
    {
        is_vlan_full(self.conf, self.group, vlan, self.hosts)
    }

    /// Whether no further host may be learned at the port, or in the VLAN of the group.
    fn is_place_full(&self, vlan: &Vlan) -> bool
        ensures { result ≡ (is_port_full (C.hosts self.now.hosts.now) self.now.dp.now.id self.now.port.now || is_vlan_full self.now.conf.now (C.hosts self.now.hosts.now) (group_of self.now.conf.now self.now.dp.now.id) vlan.now) }
    {
        is_port_full(self.dp, self.port, self.hosts) || self.is_group_full(vlan)
    }

    /// Whether no further host may be learned at the port, in the VLAN of the group, or at all.
    fn is_full(&self, vlan: &Vlan) -> bool
        ensures { result ≡ is_full self.now.conf.now (C.hosts self.now.hosts.now) self.now.dp.now self.now.port.now vlan.now }
    {
        self.is_place_full(vlan) || is_table_full(self.hosts)
    }

    fn counted_miss(&self, alloc: Global, vlan: &Vlan) -> Result<Entry, NoMemory>
        ensures { IfOk result (λ made. made ≡ miss self.now.conf.now (C.hosts self.now.hosts.now) self.now.dp.now self.now.port.now vlan.now) }
    {
        let keeps = keeps_host(self.dp, self.port, vlan, self.hosts);
        let full = self.is_full(vlan);
        make_miss(alloc, self.port, vlan, keeps, full)
    }

    /// The entries of the VLANs whose packets have a tag at the port.
    fn push_tagged(&self, alloc: Global, made: &mut Entries) -> Result<(), NoMemory>
        ensures { OnOk result (made.new ≡ made.old ++ map (miss self.now.conf.now (C.hosts self.now.hosts.now) self.now.dp.now self.now.port.now) (tagged_vlans self.now.conf.now self.now.port.now)) }
    {
        for vid in self.port.tagged.as_slice() {
            if let Some(vlan) = self.conf.vlan(*vid) {
                made.push(self.counted_miss(alloc, vlan)?)?;
            }
        }
        Ok(())
    }
}

fn make_misses<C: CountsHosts>(
    alloc: Global,
    conf: &Conf,
    dp: &Dp,
    port: &Port,
    hosts: &C,
) -> Result<Entries, NoMemory>
    ensures { IfOk result (λ made. made ≡ map (miss conf.now (C.hosts hosts.now) dp.now port.now) (vlans_of conf.now port.now)) }
{
    let group = conf.group_number(dp.id);
    let place = Place {
        conf,
        dp,
        group,
        port,
        hosts,
    };
    let mut made = Entries::new(alloc);
    if let Some(vlan) = native_vlan(conf, port) {
        made.push(place.counted_miss(alloc, vlan)?)?;
    }
    place.push_tagged(alloc, &mut made)?;
    Ok(made)
}

/// As `miss_entries`, by counts of the hosts that were learned, so that these needn't be gone over: for each VLAN
/// of the interface at most four counts are asked for. One unit of work is counted.
pub fn counted_miss_entries<C: CountsHosts, T: Tally>(
    alloc: Global,
    conf: &Conf,
    dp: &Dp,
    port: &Port,
    hosts: &C,
    units: &mut T,
) -> Result<Entries, NoMemory>
    ensures entries { IfOk result (λ made. made ≡ misses conf.now dp.now port.now (C.hosts hosts.now)) }
    ensures unit { T.count units.new ≡ counted (T.count units.old) }
{
    units.tick();
    if !port.is_accepting() {
        return Ok(Entries::new(alloc));
    }
    make_misses(alloc, conf, dp, port, hosts)
}
