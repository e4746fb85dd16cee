ghost use Rattle.std.specs.Prelude.{◌≡◌, map, IfOk};
ghost use Rattle.net_base.specs.Address.{mac_text};
ghost use Rattle.conf_json.specs.Json.{quoted, list, object};
ghost use Rattle.conf_json.specs.Text.{ip_text, vip_text, route_text, vlan_text, vlan_member};

use crate::lists::{make_names, put_numbered};
use crate::value::{Array, Json, Object};
use conf_types::{Ip, Net, Route, Vlan};
use net_base::{Mac, NoMemory, Text};
use std::alloc::Global;

fn make_mac(alloc: Global, mac: &Mac) -> Result<Json, NoMemory>
    ensures { IfOk result (λ made. made ≡ quoted (mac_text mac.now.0)) }
{
    let mut text = Text::new(alloc);
    mac.print(&mut text)?;
    Json::text(alloc, text.as_str())
}

fn make_ip(alloc: Global, ip: &Ip) -> Result<Json, NoMemory>
    ensures { IfOk result (λ made. made ≡ ip_text ip.now) }
{
    let mut text = Text::new(alloc);
    match ip {
        Ip::V4(ip) => ip.print(&mut text)?,
        Ip::V6(ip) => ip.print(&mut text)?,
    }
    Json::text(alloc, text.as_str())
}

fn make_net(alloc: Global, net: &Net) -> Result<Json, NoMemory>
    ensures { IfOk result (λ made. made ≡ vip_text net.now) }
{
    let mut text = Text::new(alloc);
    match net {
        Net::V4(net) => net.print(&mut text)?,
        Net::V6(net) => net.print(&mut text)?,
    }
    Json::text(alloc, text.as_str())
}

fn make_vips(alloc: Global, vips: &[Net]) -> Result<Json, NoMemory>
    ensures { IfOk result (λ made. made ≡ list (map vip_text vips.now)) }
{
    let mut made = Array::new(alloc);
    for vip in vips {
        made.push(make_net(alloc, vip)?)?;
    }
    Ok(made.into_json())
}

fn make_route(alloc: Global, route: &Route) -> Result<Json, NoMemory>
    ensures { IfOk result (λ made. made ≡ route_text route.now) }
{
    let mut made = Object::new(alloc);
    made.put(alloc, "ip_dst", make_net(alloc, &route.dst)?)?;
    made.put(alloc, "ip_gw", make_ip(alloc, &route.gw)?)?;
    Ok(made.into_json())
}

fn make_routes(alloc: Global, routes: &[Route]) -> Result<Json, NoMemory>
    ensures { IfOk result (λ made. made ≡ list (map route_text routes.now)) }
{
    let mut made = Array::new(alloc);
    for route in routes {
        made.push(make_route(alloc, route)?)?;
    }
    Ok(made.into_json())
}

fn make_vlan(alloc: Global, vlan: &Vlan) -> Result<Json, NoMemory>
    ensures { IfOk result (λ made. made ≡ vlan_text vlan.now) }
{
    let mut made = Object::new(alloc);
    let acls = make_names(alloc, vlan.acls.as_slice())?;
    made.put(alloc, "acls_in", acls)?;
    made.put_text(alloc, "description", &vlan.description)?;
    made.put(alloc, "faucet_mac", make_mac(alloc, &vlan.mac)?)?;
    let vips = make_vips(alloc, vlan.vips.as_slice())?;
    made.put(alloc, "faucet_vips", vips)?;
    made.put_number(alloc, "max_hosts", vlan.max_hosts)?;
    made.put_text(alloc, "name", &vlan.name)?;
    let routes = make_routes(alloc, vlan.routes.as_slice())?;
    made.put(alloc, "routes", routes)?;
    made.put_flag(alloc, "unicast_flood", vlan.unicast_flood)?;
    Ok(made.into_json())
}

/// The VLANs, under their identifiers.
pub(crate) fn make_vlans(alloc: Global, vlans: &[Vlan]) -> Result<Json, NoMemory>
    ensures { IfOk result (λ made. made ≡ object (map vlan_member vlans.now)) }
{
    let mut made = Object::new(alloc);
    for vlan in vlans {
        let json = make_vlan(alloc, vlan)?;
        put_numbered(&mut made, alloc, u32::from(vlan.vid.get()), json)?;
    }
    Ok(made.into_json())
}
