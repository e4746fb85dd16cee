ghost use Rattle.std.specs.Prelude.{◌≡◌, IfOk};
ghost use Rattle.conf_types.specs.Count.{counted};
ghost use Rattle.vlan_compile.specs.Destinations.{sent_back, from_its_port, to_its_port, over_stack, destinations};

use conf_types::{Conf, Dp, HostRec, Port, Tally};
use net_base::{NoMemory, PortNo};
use of_match::{Actions, Entries, Entry};
use plan_base::{
    Table, eth_dst, in_port, leads_to, make_entry, out, push_sent, to_ingress, vid_field,
};
use stack_paths::Paths;
use std::alloc::Global;

/// What is done with a packet that comes in by the port of the host that it is for.
fn sent_back(alloc: Global, dp: &Dp, port: &Port, host: &HostRec) -> Result<Actions, NoMemory>
    ensures { IfOk result (λ made. made ≡ sent_back dp.now port.now host.now) }
{
    let mut actions = Actions::new(alloc);
    if port.hairpin {
        push_sent(&mut actions, dp, host.vid, port, to_ingress())?;
    }
    Ok(actions)
}

fn make_from_its_port(
    alloc: Global,
    dp: &Dp,
    host: &HostRec,
    port: &Port,
) -> Result<Entry, NoMemory>
    ensures { IfOk result (λ made. made ≡ from_its_port dp.now host.now port.now) }
{
    let fields = [in_port(port.no), eth_dst(host.mac), vid_field(host.vid)];
    let instrs = leads_to(alloc, sent_back(alloc, dp, port, host)?, None)?;
    make_entry(alloc, Table::Destination, 20, &fields, instrs)
}

fn make_to_its_port(alloc: Global, dp: &Dp, host: &HostRec, port: &Port) -> Result<Entry, NoMemory>
    ensures { IfOk result (λ made. made ≡ to_its_port dp.now host.now port.now) }
{
    let fields = [eth_dst(host.mac), vid_field(host.vid)];
    let mut actions = Actions::new(alloc);
    push_sent(&mut actions, dp, host.vid, port, out(port.no))?;
    let instrs = leads_to(alloc, actions, None)?;
    make_entry(alloc, Table::Destination, 10, &fields, instrs)
}

fn make_over_stack(alloc: Global, host: &HostRec, hop: PortNo) -> Result<Entry, NoMemory>
    ensures { IfOk result (λ made. made ≡ over_stack host.now hop) }
{
    let fields = [eth_dst(host.mac), vid_field(host.vid)];
    let mut actions = Actions::new(alloc);
    actions.push(out(hop))?;
    let instrs = leads_to(alloc, actions, None)?;
    make_entry(alloc, Table::Destination, 10, &fields, instrs)
}

/// The flow entries of table 7 for a host of a datapath's group: by its port where it stands on this
/// datapath, from other ports at priority 10 and from its own at priority 20; by the next hop where it
/// stands elsewhere and a way leads there. One unit of work is counted.
pub fn dst_entries<T: Tally>(
    alloc: Global,
    _conf: &Conf,
    dp: &Dp,
    host: &HostRec,
    paths: &Paths,
    units: &mut T,
) -> Result<Entries, NoMemory>
    ensures entries { IfOk result (λ made. made ≡ destinations dp.now host.now paths.now) }
    ensures unit { T.count units.new ≡ counted (T.count units.old) }
{
    units.tick();
    let mut made = Entries::new(alloc);
    if host.dp == dp.id {
        if let Some(port) = dp.port(host.port) {
            made.push(make_from_its_port(alloc, dp, host, port)?)?;
            made.push(make_to_its_port(alloc, dp, host, port)?)?;
        }
    } else if let Some(hop) = paths.next_hop(dp.id, host.dp) {
        made.push(make_over_stack(alloc, host, hop)?)?;
    }
    Ok(made)
}
