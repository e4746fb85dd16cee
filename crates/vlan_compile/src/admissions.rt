ghost use Rattle.std.specs.Prelude.{◌≡◌, ◌++◌, map, IfOk, OnOk};
ghost use Rattle.conf_types.specs.Count.{counted};
ghost use Rattle.plan_base.specs.Sending.{mirrored};
ghost use Rattle.vlan_compile.specs.Vlans.{tagged_vlans};
ghost use Rattle.vlan_compile.specs.Admissions.{next_in, lldp_heard, from_stack, without_tag, with_tag, from_stacks, from_edges, admissions};

use crate::vlans::native_vlan;
use conf_types::{Conf, Dp, Port, Tally, Vlan};
use net_base::{NoMemory, PortNo, TryCopy, Vid};
use of_match::ether_type::LLDP;
use of_match::{Actions, Entries, Entry};
use plan_base::{
    Table, eth_type, in_port, leads_to, make_entry, push_mirrored, push_tag, set_vid,
    to_controller, untagged, vid_field,
};
use std::alloc::Global;

/// Where an admitted packet goes on.
fn next_in(vlan: &Vlan) -> Table
    ensures { result ≡ next_in vlan.now }
{
    if vlan.acls.len() == 0 {
        Table::Source
    } else {
        Table::VlanAcl
    }
}

pub(crate) fn make_lldp_heard(alloc: Global, port: &Port) -> Result<Entry, NoMemory>
    ensures { IfOk result (λ made. made ≡ lldp_heard port.now) }
{
    let fields = [in_port(port.no), eth_type(LLDP), untagged()];
    let mut actions = Actions::new(alloc);
    actions.push(to_controller())?;
    let instrs = leads_to(alloc, actions, None)?;
    make_entry(alloc, Table::Admission, 40, &fields, instrs)
}

pub(crate) fn make_from_stack(alloc: Global, port: &Port, vlan: &Vlan) -> Result<Entry, NoMemory>
    ensures { IfOk result (λ made. made ≡ from_stack port.now vlan.now) }
{
    let fields = [in_port(port.no), vid_field(vlan.vid)];
    let instrs = leads_to(alloc, Actions::new(alloc), Some(Table::Destination))?;
    make_entry(alloc, Table::Admission, 40, &fields, instrs)
}

/// The entries of an end of a stack link.
fn push_from_stacks(
    alloc: Global,
    made: &mut Entries,
    vlans: &[Vlan],
    port: &Port,
) -> Result<(), NoMemory>
    ensures { OnOk result (made.new ≡ made.old ++ map (from_stack port.now) vlans.now) }
{
    for vlan in vlans {
        made.push(make_from_stack(alloc, port, vlan)?)?;
    }
    Ok(())
}

/// `copies` are those by the mirrors of the port, here and below.
pub(crate) fn make_without_tag(
    alloc: Global,
    dp: &Dp,
    port: &Port,
    vlan: &Vlan,
    copies: &Actions,
) -> Result<Entry, NoMemory>
    requires { copies.now ≡ mirrored dp.now port.now.no }
    ensures { IfOk result (λ made. made ≡ without_tag dp.now port.now vlan.now) }
{
    let mut actions = copies.copy(alloc)?;
    actions.push(push_tag())?;
    actions.push(set_vid(vlan.vid))?;
    let instrs = leads_to(alloc, actions, Some(next_in(vlan)))?;
    make_entry(
        alloc,
        Table::Admission,
        20,
        &[in_port(port.no), untagged()],
        instrs,
    )
}

pub(crate) fn make_with_tag(
    alloc: Global,
    dp: &Dp,
    port: &Port,
    vlan: &Vlan,
    copies: &Actions,
) -> Result<Entry, NoMemory>
    requires { copies.now ≡ mirrored dp.now port.now.no }
    ensures { IfOk result (λ made. made ≡ with_tag dp.now port.now vlan.now) }
{
    let fields = [in_port(port.no), vid_field(vlan.vid)];
    let instrs = leads_to(alloc, copies.copy(alloc)?, Some(next_in(vlan)))?;
    make_entry(alloc, Table::Admission, 20, &fields, instrs)
}

/// The entries of the VLANs whose packets have a tag at the port.
fn push_with_tags(
    alloc: Global,
    made: &mut Entries,
    conf: &Conf,
    dp: &Dp,
    port: &Port,
    copies: &Actions,
) -> Result<(), NoMemory>
    requires { copies.now ≡ mirrored dp.now port.now.no }
    ensures { OnOk result (made.new ≡ made.old ++ map (with_tag dp.now port.now) (tagged_vlans conf.now port.now)) }
{
    for vid in port.tagged.as_slice() {
        if let Some(vlan) = conf.vlan(*vid) {
            made.push(make_with_tag(alloc, dp, port, vlan, copies)?)?;
        }
    }
    Ok(())
}

/// The flow entries of table 1 for an interface of a datapath: which VLAN admits a packet that comes in
/// by it, at priority 20, and at an end of a stack link, at priority 40, every VLAN, and LLDP without a
/// tag, which the controller gets. One unit of work is counted.
pub fn admit_entries<T: Tally>(
    alloc: Global,
    conf: &Conf,
    dp: &Dp,
    port: &Port,
    units: &mut T,
) -> Result<Entries, NoMemory>
    ensures entries { IfOk result (λ made. made ≡ admissions conf.now dp.now port.now) }
    ensures unit { T.count units.new ≡ counted (T.count units.old) }
{
    units.tick();
    let mut made = Entries::new(alloc);
    if port.is_stack() {
        made.push(make_lldp_heard(alloc, port)?)?;
        push_from_stacks(alloc, &mut made, conf.vlans().as_slice(), port)?;
    }
    if port.is_accepting() {
        let mut copies = Actions::new(alloc);
        push_mirrored(&mut copies, dp, port.no)?;
        if let Some(vlan) = native_vlan(conf, port) {
            made.push(make_without_tag(alloc, dp, port, vlan, &copies)?)?;
        }
        push_with_tags(alloc, &mut made, conf, dp, port, &copies)?;
    }
    Ok(made)
}
