//! All entries of a datapath, unit by unit.

ghost use Rattle.std.specs.Prelude.{◌≡◌, ◌++◌, ◌*◌, Some, length, IfOk, OnOk};
ghost use Rattle.std.specs.List.{flat_map};
ghost use Rattle.conf_types.specs.Configuration.{dp_with};
ghost use Rattle.conf_types.specs.State.{IsValidState};
ghost use Rattle.packet_way.specs.Present.{state_of};
ghost use Rattle.plan_units.specs.Units.{plan};
ghost use Rattle.route_compile.specs.Routes.{fib};
ghost use Rattle.cold_start.specs.Cold.{units_of};
ghost use Rattle.cold_start.specs.Counts.{RisesAtMost, RisesAtLeast};
ghost use Rattle.cold_start.specs.Members.{port_by, vlan_by, host_by};

use crate::append::append;
use crate::fixed::fixed_entries;
use crate::hosts::hosts_of;
use crate::members::{host_entries, port_entries, vlan_entries};
use conf_types::{Conf, Dp, HostRec, Tally, Vlan};
use net_base::NoMemory;
use of_match::Entries;
use packet_way::{Now, make_paths};
use route_compile::fib_entries;
use stack_paths::Paths;
use std::alloc::Global;

/// The datapath whose entries are made, and what they hang on.
#[derive(Drop)]
struct Making<'a> {
    alloc: Global,
    conf: &'a Conf,
    learned: &'a Now<'a>,
    paths: &'a Paths,
    dp: &'a Dp,
}

impl<'a> Making<'a> {
    #[tactic(auto, using(crate::proofs::Lists::flat_more))]
    fn push_ports<T: Tally>(&self, all: &mut Entries, units: &mut T) -> Result<(), NoMemory>
        ensures entries { OnOk result (all.new ≡ all.old ++ flat_map (port_by self.now.conf.now self.now.dp.now self.now.learned.now.hosts.now) self.now.dp.now.ports) }
        ensures most { RisesAtMost (3 * length self.now.dp.now.ports) (T.count units.old) (T.count units.new) }
        ensures least { OnOk result (RisesAtLeast (length self.now.dp.now.ports) (T.count units.old) (T.count units.new)) }
    {
        for port in self.dp.ports.as_slice() {
            let hosts = self.learned.hosts;
            let made = port_entries(self.alloc, self.conf, self.dp, port, hosts, units)?;
            append(all, made)?;
        }
        Ok(())
    }

    #[tactic(auto, using(crate::proofs::Lists::flat_more))]
    fn push_vlans<T: Tally>(
        &self,
        all: &mut Entries,
        vlans: &[Vlan],
        units: &mut T,
    ) -> Result<(), NoMemory>
        ensures entries { OnOk result (all.new ≡ all.old ++ flat_map (vlan_by self.now.conf.now self.now.dp.now self.now.paths.now) vlans.now) }
        ensures most { RisesAtMost (3 * length vlans.now) (T.count units.old) (T.count units.new) }
        ensures least { OnOk result (RisesAtLeast (length vlans.now) (T.count units.old) (T.count units.new)) }
    {
        for vlan in vlans {
            let made = vlan_entries(self.alloc, self.conf, self.dp, vlan, self.paths, units)?;
            append(all, made)?;
        }
        Ok(())
    }

    #[tactic(auto, using(crate::proofs::Lists::flat_more))]
    fn push_hosts<T: Tally>(
        &self,
        all: &mut Entries,
        hosts: &[HostRec],
        units: &mut T,
    ) -> Result<(), NoMemory>
        ensures entries { OnOk result (all.new ≡ all.old ++ flat_map (host_by self.now.conf.now self.now.dp.now self.now.learned.now.moment.0 self.now.paths.now) hosts.now) }
        ensures most { RisesAtMost (3 * length hosts.now) (T.count units.old) (T.count units.new) }
        ensures least { OnOk result (RisesAtLeast (length hosts.now) (T.count units.old) (T.count units.new)) }
    {
        let moment = self.learned.moment;
        for host in hosts {
            let made = host_entries(
                self.alloc, self.conf, self.dp, host, moment, self.paths, units,
            )?;
            append(all, made)?;
        }
        Ok(())
    }

    #[tactic(auto, using(crate::proofs::Lists::flat_more))]
    fn push_routes<T: Tally>(
        &self,
        all: &mut Entries,
        vlans: &[Vlan],
        units: &mut T,
    ) -> Result<(), NoMemory>
        ensures entries { OnOk result (all.new ≡ all.old ++ flat_map (fib self.now.conf.now self.now.learned.now.neighbours.now self.now.dp.now) vlans.now) }
        ensures most { RisesAtMost (3 * length vlans.now) (T.count units.old) (T.count units.new) }
        ensures least { OnOk result (RisesAtLeast (length vlans.now) (T.count units.old) (T.count units.new)) }
    {
        let neighbours = self.learned.neighbours;
        for vlan in vlans {
            let made = fib_entries(self.alloc, self.conf, self.dp, vlan, neighbours, units)?;
            append(all, made)?;
        }
        Ok(())
    }
}

/// All entries of a datapath. For each of its units at least one unit of work is counted where they are
/// made, and at most three.
#[tactic(auto, using(crate::proofs::Groups::units_count))]
pub(crate) fn plan_entries<T: Tally>(
    alloc: Global,
    conf: &Conf,
    now: &Now,
    dp: &Dp,
    units: &mut T,
) -> Result<Entries, NoMemory>
    requires dp { dp_with conf.now.dps dp.now.id ≡ Some dp.now }
    requires state { IsValidState conf.now (state_of now.now) }
    ensures entries { IfOk result (λ all. all ≡ plan conf.now (state_of now.now) dp.now) }
    ensures most { RisesAtMost (3 * length (units_of conf.now (state_of now.now) dp.now)) (T.count units.old) (T.count units.new) }
    ensures least { OnOk result (RisesAtLeast (length (units_of conf.now (state_of now.now) dp.now)) (T.count units.old) (T.count units.new)) }
{
    let paths = make_paths(alloc, conf, now.ups.as_slice())?;
    let hosts = hosts_of(alloc, conf, now, dp)?;
    let hosts = hosts.as_slice();
    let vlans = conf.vlans().as_slice();
    units.tick();
    let mut all = fixed_entries(alloc, conf, dp)?;
    let making = Making {
        alloc,
        conf,
        learned: now,
        paths: &paths,
        dp,
    };
    making.push_ports(&mut all, units)?;
    making.push_vlans(&mut all, vlans, units)?;
    making.push_hosts(&mut all, hosts, units)?;
    making.push_routes(&mut all, vlans, units)?;
    Ok(all)
}
