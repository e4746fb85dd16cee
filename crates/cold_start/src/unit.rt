//! The entries of one unit.

ghost use Rattle.std.specs.Prelude.{◌≡◌, [], IfOk, IfSome, OnOk};
ghost use Rattle.packet_way.specs.Known.{stack_of};
ghost use Rattle.packet_way.specs.Present.{state_of};
ghost use Rattle.plan_units.specs.declared.unit.Unit.TheVariants as unit_case;
ghost use Rattle.plan_units.specs.Units.{entries};
ghost use Rattle.cold_start.specs.Cold.{entries_at};
ghost use Rattle.cold_start.specs.Counts.{RisesAtMost, RisesAtLeast};

use crate::fixed::fixed_entries;
use crate::hosts::find_host;
use crate::members::{host_entries, port_entries, vlan_entries};
use conf_types::{Conf, Dp, Tally};
use net_base::{DpId, Mac, NoMemory, PortNo, Vid};
use of_match::Entries;
use packet_way::{Now, make_paths};
use plan_units::Unit;
use route_compile::fib_entries;
use stack_paths::Paths;
use std::alloc::Global;

/// What is there of a unit that isn't the datapath's.
fn no_entries<T: Tally>(alloc: Global, units: &mut T) -> Entries
    ensures entries { result ≡ [] }
    ensures most { RisesAtMost 3 (T.count units.old) (T.count units.new) }
    ensures least { RisesAtLeast 1 (T.count units.old) (T.count units.new) }
{
    units.tick();
    Entries::new(alloc)
}

/// A datapath of which the entries of units are made, and what they hang on: the paths of the state's stack,
/// where they are at hand.
#[derive(Drop)]
struct Making<'a> {
    alloc: Global,
    conf: &'a Conf,
    learned: &'a Now<'a>,
    paths: Option<&'a Paths>,
    dp: &'a Dp,
}

impl<'a> Making<'a> {
    fn of_port<T: Tally>(&self, no: PortNo, units: &mut T) -> Result<Entries, NoMemory>
        ensures entries { IfOk result (λ made. made ≡ entries self.now.conf.now (state_of self.now.learned.now) self.now.dp.now (unit_case.Port no)) }
        ensures most { RisesAtMost 3 (T.count units.old) (T.count units.new) }
        ensures least { OnOk result (RisesAtLeast 1 (T.count units.old) (T.count units.new)) }
    {
        let hosts = self.learned.hosts;
        match self.dp.port(no) {
            Some(port) => port_entries(self.alloc, self.conf, self.dp, port, hosts, units),
            None => Ok(no_entries(self.alloc, units)),
        }
    }

    fn of_vlan<T: Tally>(&self, vid: Vid, units: &mut T) -> Result<Entries, NoMemory>
        requires { IfSome self.now.paths (λ paths. paths.now ≡ stack_of self.now.conf.now self.now.learned.now.ups.now) }
        ensures entries { IfOk result (λ made. made ≡ entries self.now.conf.now (state_of self.now.learned.now) self.now.dp.now (unit_case.Vlan vid)) }
        ensures most { RisesAtMost 3 (T.count units.old) (T.count units.new) }
        ensures least { OnOk result (RisesAtLeast 1 (T.count units.old) (T.count units.new)) }
    {
        let Some(vlan) = self.conf.vlan(vid) else {
            return Ok(no_entries(self.alloc, units));
        };
        let paths = self.paths;
        match paths {
            Some(paths) => vlan_entries(self.alloc, self.conf, self.dp, vlan, paths, units),
            None => {
                let paths = make_paths(self.alloc, self.conf, self.learned.ups.as_slice())?;
                vlan_entries(self.alloc, self.conf, self.dp, vlan, &paths, units)
            }
        }
    }

    fn of_host<T: Tally>(&self, vid: Vid, mac: Mac, units: &mut T) -> Result<Entries, NoMemory>
        requires { IfSome self.now.paths (λ paths. paths.now ≡ stack_of self.now.conf.now self.now.learned.now.ups.now) }
        ensures entries { IfOk result (λ made. made ≡ entries self.now.conf.now (state_of self.now.learned.now) self.now.dp.now (unit_case.Host vid mac)) }
        ensures most { RisesAtMost 3 (T.count units.old) (T.count units.new) }
        ensures least { OnOk result (RisesAtLeast 1 (T.count units.old) (T.count units.new)) }
    {
        let hosts = self.learned.hosts;
        let Some(host) = find_host(self.conf, hosts, self.dp, vid, mac) else {
            return Ok(no_entries(self.alloc, units));
        };
        let moment = self.learned.moment;
        let paths = self.paths;
        match paths {
            Some(paths) => {
                host_entries(self.alloc, self.conf, self.dp, host, moment, paths, units)
            }
            None => {
                let paths = make_paths(self.alloc, self.conf, self.learned.ups.as_slice())?;
                host_entries(self.alloc, self.conf, self.dp, host, moment, &paths, units)
            }
        }
    }

    fn of_routes<T: Tally>(&self, vid: Vid, units: &mut T) -> Result<Entries, NoMemory>
        ensures entries { IfOk result (λ made. made ≡ entries self.now.conf.now (state_of self.now.learned.now) self.now.dp.now (unit_case.Route vid)) }
        ensures most { RisesAtMost 3 (T.count units.old) (T.count units.new) }
        ensures least { OnOk result (RisesAtLeast 1 (T.count units.old) (T.count units.new)) }
    {
        let neighbours = self.learned.neighbours;
        match self.conf.vlan(vid) {
            Some(vlan) => fib_entries(self.alloc, self.conf, self.dp, vlan, neighbours, units),
            None => Ok(no_entries(self.alloc, units)),
        }
    }
}

/// The entries of one unit of a datapath; none where the configuration has no such datapath, or the
/// datapath no such unit. At least one unit of work is counted where they are made, and at most three.
pub fn unit_entries<T: Tally>(
    alloc: Global,
    conf: &Conf,
    now: &Now,
    dp: DpId,
    unit: &Unit,
    units: &mut T,
) -> Result<Entries, NoMemory>
    ensures entries { IfOk result (λ made. made ≡ entries_at conf.now (state_of now.now) dp unit.now) }
    ensures most { RisesAtMost 3 (T.count units.old) (T.count units.new) }
    ensures least { OnOk result (RisesAtLeast 1 (T.count units.old) (T.count units.new)) }
{
    unit_entries_with(alloc, conf, now, None, dp, unit, units)
}

/// As `unit_entries`, by these paths of the state's stack, so that they are made once for many units. Where
/// none are handed in, they are made for a unit that hangs on them: a VLAN or a host.
pub fn unit_entries_with<T: Tally>(
    alloc: Global,
    conf: &Conf,
    now: &Now,
    paths: Option<&Paths>,
    dp: DpId,
    unit: &Unit,
    units: &mut T,
) -> Result<Entries, NoMemory>
    requires { IfSome paths (λ paths. paths.now ≡ stack_of conf.now now.now.ups.now) }
    ensures entries { IfOk result (λ made. made ≡ entries_at conf.now (state_of now.now) dp unit.now) }
    ensures most { RisesAtMost 3 (T.count units.old) (T.count units.new) }
    ensures least { OnOk result (RisesAtLeast 1 (T.count units.old) (T.count units.new)) }
{
    let Some(dp) = conf.dp(dp) else {
        return Ok(no_entries(alloc, units));
    };
    let making = Making {
        alloc,
        conf,
        learned: now,
        paths,
        dp,
    };
    match unit {
        Unit::Dp => {
            units.tick();
            fixed_entries(alloc, conf, dp)
        }
        Unit::Port(no) => making.of_port(*no, units),
        Unit::Vlan(vid) => making.of_vlan(*vid, units),
        Unit::Host(vid, mac) => making.of_host(*vid, *mac, units),
        Unit::Route(vid) => making.of_routes(*vid, units),
    }
}
