//! The configuration of the story.

ghost use Rattle.std.specs.Prelude.{◌≡◌, IfOk};
ghost use Rattle.bench_story.specs.Setup.{configuration, datapath, interface, interfaces, vlan};

use conf_types::{
    Acls, Conf, Dp, Dps, Nets, Port, PortNos, Ports, Routers, Routes, Vids, Vlan, Vlans,
};
use itoa::Buffer;
use net_base::{DpId, Mac, Names, NoMemory, PortNo, Text, Vid};
use std::alloc::Global;

/// How many interfaces the datapath has.
pub const PORTS: u32 = 48;

/// How many hosts there may be at an interface, and in the VLAN.
const MOST_HOSTS: u32 = 16_384;

const VLAN: u16 = 100;

fn make_vlan(alloc: Global) -> Result<Vlan, NoMemory>
    ensures { IfOk result (λ made. made ≡ vlan) }
{
    Ok(Vlan {
        vid: Vid::new(VLAN).unwrap(),
        name: Text::from_str(alloc, "100")?,
        description: Text::from_str(alloc, "100")?,
        mac: Mac([0x0e, 0, 0, 0, 0, 1]),
        vips: Nets::new(alloc),
        routes: Routes::new(alloc),
        acls: Names::new(alloc),
        max_hosts: MOST_HOSTS,
        unicast_flood: true,
    })
}

fn make_interface(alloc: Global, no: PortNo) -> Result<Port, NoMemory>
    ensures { IfOk result (λ made. made ≡ interface no) }
{
    let mut buffer = Buffer::new();
    let name = buffer.format(no.get());
    Ok(Port {
        no,
        name: Text::from_str(alloc, name)?,
        description: Text::from_str(alloc, name)?,
        enabled: true,
        native: Some(Vid::new(VLAN).unwrap()),
        tagged: Vids::new(alloc),
        acls: Names::new(alloc),
        output_only: false,
        hairpin: false,
        unicast_flood: true,
        permanent_learn: false,
        opstatus_reconf: true,
        max_hosts: MOST_HOSTS,
        mirror: PortNos::new(alloc),
        stack: None,
    })
}

fn make_interfaces(alloc: Global) -> Result<Ports, NoMemory>
    ensures { IfOk result (λ made. made ≡ interfaces 48) }
{
    let mut made = Ports::new(alloc);
    for at in 0..PORTS {
        let no = PortNo::new(at + 1).unwrap();
        made.push(make_interface(alloc, no)?)?;
    }
    Ok(made)
}

fn make_datapath(alloc: Global) -> Result<Dp, NoMemory>
    ensures { IfOk result (λ made. made ≡ datapath) }
{
    Ok(Dp {
        id: DpId(1),
        name: Text::from_str(alloc, "bench")?,
        description: Text::from_str(alloc, "bench")?,
        hardware: Text::from_str(alloc, "Open vSwitch")?,
        timeout: 300,
        arp_timeout: 30,
        stack_priority: None,
        lldp: None,
        drop_spoofed: true,
        drop_broadcast: true,
        drop_bpdu: true,
        drop_lldp: true,
        ports: make_interfaces(alloc)?,
    })
}

/// The configuration of the story: one datapath, whose interfaces are native in one VLAN.
pub fn make_configuration(alloc: Global) -> Result<Conf, NoMemory>
    ensures { IfOk result (λ made. made ≡ configuration) }
{
    let mut dps = Dps::new(alloc);
    dps.push(make_datapath(alloc)?)?;
    let mut vlans = Vlans::new(alloc);
    vlans.push(make_vlan(alloc)?)?;
    Ok(Conf::new(dps, vlans, Acls::new(alloc), Routers::new(alloc)))
}
