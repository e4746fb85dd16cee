ghost use Rattle.std.specs.Prelude.{◌≡◌, ◌==◌, ◌+◌, ◌<◌, ◌^◌, ℕ, filter, slice_index, slice_set, vec_len, IfOk};
ghost use Rattle.std.specs.List.{find, list_any};
ghost use Rattle.std.specs.Option.{option_copied};
ghost use Rattle.conf_types.specs.State.{is_host_at};
ghost use Rattle.vlan_compile.specs.Counts.{is_of_group, AreAnswered, AreCounts, AreLearned, is_full_by};

use conf_types::{Conf, Dp, HostRec, HostRecs, Port, Vlan, is_table_full};
use net_base::{DpId, Items, NoMemory, PortNo, Vid};
use std::alloc::Global;

/// One place for each VLAN identifier (IEEE 802.1Q, 9.6: it has 12 bits).
const PLACES: usize = 4096;

/// A datapath, and whether it is of a group.
#[derive(Clone, Copy, Debug)]
pub(crate) struct Asked {
    dp: DpId,
    is_in: bool,
}

/// What was learned, as the entries of a port need it.
#[derive(Debug, Drop)]
pub(crate) struct Learned {
    /// The hosts at the port.
    here: HostRecs,
    /// How many hosts of each VLAN the group has, at the place of the VLAN's identifier.
    in_group: Vec<usize>,
    /// No further host may be learned at all.
    is_full: bool,
}

fn asked_before(asked: &[Asked], dp: DpId) -> Option<&Asked>
    ensures { option_copied result ≡ find (λ a. a.dp.0 == dp.0) asked.now }
{
    asked.iter().find(|answer| answer.dp == dp)
}

/// Whether a datapath is of the group with this number. What was asked before isn't worked out again.
fn is_of_group(
    conf: &Conf,
    group: DpId,
    asked: &mut Items<Asked>,
    dp: DpId,
) -> Result<bool, NoMemory>
    requires { AreAnswered conf.now group asked.old }
    ensures right { IfOk result (λ is_in. is_in ≡ is_of_group conf.now group dp) }
    ensures answered { AreAnswered conf.now group asked.new }
{
    match asked_before(asked.as_slice(), dp) {
        Some(answer) => Ok(answer.is_in),
        None => {
            let is_in = conf.group_number(dp) == group;
            asked.push(Asked { dp, is_in })?;
            Ok(is_in)
        }
    }
}

/// A count of 0 for each VLAN identifier.
fn no_counts(alloc: Global) -> Result<Vec<usize>, NoMemory>
    ensures len { IfOk result (λ counts. vec_len counts ≡ 4096) }
    ensures none { IfOk result (λ counts. (vid : ℕ) → slice_index counts.items vid ≡ 0) }
{
    let mut counts = Vec::with_capacity(alloc, PLACES)?;
    for _vid in 0..PLACES {
        counts.push(0)?;
    }
    Ok(counts)
}

/// One host more of a VLAN.
fn count_one(counts: &mut Vec<usize>, vid: Vid)
    requires len { vec_len counts.old ≡ 4096 }
    requires fits { slice_index counts.old.items vid + 1 < 2 ^ 64 }
    ensures len { vec_len counts.new ≡ 4096 }
    ensures counts { counts.new.items ≡ slice_set counts.old.items vid (slice_index counts.old.items vid + 1) }
    ensures place { vid < 4096 }
{
    counts[usize::from(vid.get())] += 1;
}

/// How many hosts of each VLAN are in the group with this number.
fn count_in_group(
    alloc: Global,
    conf: &Conf,
    group: DpId,
    hosts: &[HostRec],
) -> Result<Vec<usize>, NoMemory>
    ensures len { IfOk result (λ counts. vec_len counts ≡ 4096) }
    ensures counts { IfOk result (λ counts. AreCounts conf.now group hosts.now counts.items) }
{
    let mut asked = Items::new(alloc);
    let mut counts = no_counts(alloc)?;
    for host in hosts {
        if is_of_group(conf, group, &mut asked, host.dp)? {
            count_one(&mut counts, host.vid);
        }
    }
    Ok(counts)
}

fn hosts_at(alloc: Global, hosts: &[HostRec], dp: DpId, port: PortNo) -> Result<HostRecs, NoMemory>
    ensures { IfOk result (λ here. here ≡ filter (is_host_at dp port) hosts.now) }
{
    let mut here = Items::new(alloc);
    for host in hosts {
        if host.is_at(dp, port) {
            here.push(*host)?;
        }
    }
    Ok(here)
}

/// What the hosts say for the entries of a port.
pub(crate) fn find_learned(
    alloc: Global,
    conf: &Conf,
    dp: &Dp,
    port: &Port,
    hosts: &[HostRec],
) -> Result<Learned, NoMemory>
    ensures len { IfOk result (λ learned. vec_len learned.in_group ≡ 4096) }
    ensures learned { IfOk result (λ learned. AreLearned conf.now dp.now port.now hosts.now learned) }
{
    let group = conf.group_number(dp.id);
    Ok(Learned {
        here: hosts_at(alloc, hosts, dp.id, port.no)?,
        in_group: count_in_group(alloc, conf, group, hosts)?,
        is_full: is_table_full(hosts),
    })
}

impl Learned {
    /// Whether the port has a host of the VLAN.
    pub(crate) fn has_host(&self, vid: Vid) -> bool
        ensures { result ≡ list_any (λ h. h.vid == vid) self.now.here }
    {
        self.here
            .as_slice()
            .iter()
            .any(|host| host.vid.get() == vid.get())
    }

    /// Whether no further host may be learned at the port, in the VLAN of the group, or at all.
    pub(crate) fn is_full(&self, port: &Port, vlan: &Vlan) -> bool
        requires { vec_len self.now.in_group ≡ 4096 }
        ensures { result ≡ is_full_by self.now port.now vlan.now }
    {
        port.max_hosts as usize <= self.here.len()
            || vlan.max_hosts as usize <= self.in_group[usize::from(vlan.vid.get())]
            || self.is_full
    }
}
