ghost use Rattle.std.specs.Prelude.{◌≡◌, map, IfOk};
ghost use Rattle.conf_json.specs.Json.{object};
ghost use Rattle.conf_json.specs.Text.{acl_member, router_member, json_text};

use crate::datapath::make_dps;
use crate::lists::make_vids;
use crate::value::{Json, Object};
use crate::vlan::make_vlans;
use conf_types::{Acl, Conf, Router};
use net_base::{NoMemory, Text};
use std::alloc::Global;

/// The ACLs, under their names, each told by how many rules it has.
fn make_acls(alloc: Global, acls: &[Acl]) -> Result<Json, NoMemory>
    ensures { IfOk result (λ made. made ≡ object (map acl_member acls.now)) }
{
    let mut made = Object::new(alloc);
    for acl in acls {
        let rules = Json::number(acl.rules.len() as u64);
        made.put(alloc, acl.name.as_str(), rules)?;
    }
    Ok(made.into_json())
}

/// The routers, under their names, each told by its VLANs.
fn make_routers(alloc: Global, routers: &[Router]) -> Result<Json, NoMemory>
    ensures { IfOk result (λ made. made ≡ object (map router_member routers.now)) }
{
    let mut made = Object::new(alloc);
    for router in routers {
        let vids = make_vids(alloc, router.vlans.as_slice())?;
        made.put(alloc, router.name.as_str(), vids)?;
    }
    Ok(made.into_json())
}

#[tactic(auto, unfolding(crate::specs::Text::json_text))]
fn make_conf(alloc: Global, conf: &Conf) -> Result<Json, NoMemory>
    ensures { IfOk result (λ made. made ≡ json_text conf.now) }
{
    let mut made = Object::new(alloc);
    let acls = make_acls(alloc, conf.acls().as_slice())?;
    made.put(alloc, "acls", acls)?;
    let dps = make_dps(alloc, conf, conf.dps().as_slice())?;
    made.put(alloc, "dps", dps)?;
    let routers = make_routers(alloc, conf.routers().as_slice())?;
    made.put(alloc, "routers", routers)?;
    let vlans = make_vlans(alloc, conf.vlans().as_slice())?;
    made.put(alloc, "vlans", vlans)?;
    Ok(made.into_json())
}

/// The JSON text of a configuration, without a line's end.
pub fn json(alloc: Global, conf: &Conf) -> Result<Text, NoMemory>
    ensures { IfOk result (λ text. text ≡ json_text conf.now) }
{
    make_conf(alloc, conf)?.print(alloc)
}
