ghost use Rattle.std.specs.Prelude.{◌≡◌, IfOk};
ghost use Rattle.conf_types.specs.Count.{counted};
ghost use Rattle.vlan_compile.specs.Sources.{heard_copies, at_its_port, elsewhere, sources};

use conf_types::{Conf, Dp, HostRec, Tally};
use net_base::{Moment, NoMemory};
use of_match::{Actions, Entries, Entry};
use plan_base::{Table, eth_src, in_port, leads_to, make_entry, to_controller, vid_field};
use std::alloc::Global;

/// What is done where a host is heard at its own port.
fn heard_copies(
    alloc: Global,
    conf: &Conf,
    moment: Moment,
    host: &HostRec,
) -> Result<Actions, NoMemory>
    ensures { IfOk result (λ made. made ≡ heard_copies conf.now moment.0 host.now) }
{
    let mut copies = Actions::new(alloc);
    if !conf.is_fresh(moment, host) {
        copies.push(to_controller())?;
    }
    Ok(copies)
}

fn make_at_its_port(
    alloc: Global,
    conf: &Conf,
    moment: Moment,
    host: &HostRec,
) -> Result<Entry, NoMemory>
    ensures { IfOk result (λ made. made ≡ at_its_port conf.now moment.0 host.now) }
{
    let fields = [in_port(host.port), eth_src(host.mac), vid_field(host.vid)];
    let copies = heard_copies(alloc, conf, moment, host)?;
    let instrs = leads_to(alloc, copies, Some(Table::Ipv4Route))?;
    make_entry(alloc, Table::Source, 30, &fields, instrs)
}

pub(crate) fn make_elsewhere(alloc: Global, host: &HostRec) -> Result<Entry, NoMemory>
    ensures { IfOk result (λ made. made ≡ elsewhere host.now) }
{
    let fields = [eth_src(host.mac), vid_field(host.vid)];
    let instrs = leads_to(alloc, Actions::new(alloc), None)?;
    make_entry(alloc, Table::Source, 20, &fields, instrs)
}

/// The flow entries of table 3 for a host of a datapath's group, at a moment: where it is heard at its own
/// port, at priority 30, and the end of its address at other ports where it stays, at priority 20. One
/// unit of work is counted.
pub fn src_entries<T: Tally>(
    alloc: Global,
    conf: &Conf,
    dp: &Dp,
    host: &HostRec,
    moment: Moment,
    units: &mut T,
) -> Result<Entries, NoMemory>
    ensures entries { IfOk result (λ made. made ≡ sources conf.now dp.now host.now moment.0) }
    ensures unit { T.count units.new ≡ counted (T.count units.old) }
{
    units.tick();
    let mut made = Entries::new(alloc);
    if host.dp == dp.id {
        made.push(make_at_its_port(alloc, conf, moment, host)?)?;
    }
    if conf.is_permanent(host) {
        made.push(make_elsewhere(alloc, host)?)?;
    }
    Ok(made)
}
