ghost use Rattle.std.specs.Prelude.{◌≡◌, map, IfOk};
ghost use Rattle.std.specs.Option.{option_map_or};
ghost use Rattle.conf_json.specs.Json.{null, quoted, object};
ghost use Rattle.conf_json.specs.Text.{far_name, far_end_text, port_text, port_member};

use crate::lists::{make_names, make_port_nos, make_vids, put_numbered, vid_or_null};
use crate::value::{Json, Object};
use conf_types::{Conf, Port, StackEnd};
use net_base::NoMemory;
use std::alloc::Global;

/// The name of the far end's datapath.
fn make_far_name(alloc: Global, conf: &Conf, far: StackEnd) -> Result<Json, NoMemory>
    ensures { IfOk result (λ made. made ≡ quoted (far_name conf.now far)) }
{
    match conf.dp(far.dp) {
        Some(dp) => Json::text(alloc, dp.name.as_str()),
        None => Json::text(alloc, ""),
    }
}

fn make_far_end(alloc: Global, conf: &Conf, far: StackEnd) -> Result<Json, NoMemory>
    ensures { IfOk result (λ made. made ≡ far_end_text conf.now far) }
{
    let mut made = Object::new(alloc);
    made.put(alloc, "dp", make_far_name(alloc, conf, far)?)?;
    made.put(alloc, "port", Json::number(u64::from(far.port.get())))?;
    Ok(made.into_json())
}

fn make_stack(alloc: Global, conf: &Conf, stack: Option<StackEnd>) -> Result<Json, NoMemory>
    ensures { IfOk result (λ made. made ≡ option_map_or (far_end_text conf.now) stack null) }
{
    match stack {
        Some(far) => make_far_end(alloc, conf, far),
        None => Ok(Json::null()),
    }
}

fn make_port(alloc: Global, conf: &Conf, port: &Port) -> Result<Json, NoMemory>
    ensures { IfOk result (λ made. made ≡ port_text conf.now port.now) }
{
    let mut made = Object::new(alloc);
    let acls = make_names(alloc, port.acls.as_slice())?;
    made.put(alloc, "acls_in", acls)?;
    made.put_text(alloc, "description", &port.description)?;
    made.put_flag(alloc, "enabled", port.enabled)?;
    made.put_flag(alloc, "hairpin", port.hairpin)?;
    made.put_number(alloc, "max_hosts", port.max_hosts)?;
    let mirror = make_port_nos(alloc, port.mirror.as_slice())?;
    made.put(alloc, "mirror", mirror)?;
    made.put_text(alloc, "name", &port.name)?;
    made.put(alloc, "native_vlan", vid_or_null(port.native))?;
    made.put_flag(alloc, "opstatus_reconf", port.opstatus_reconf)?;
    made.put_flag(alloc, "output_only", port.output_only)?;
    made.put_flag(alloc, "permanent_learn", port.permanent_learn)?;
    let stack = make_stack(alloc, conf, port.stack)?;
    made.put(alloc, "stack", stack)?;
    let tagged = make_vids(alloc, port.tagged.as_slice())?;
    made.put(alloc, "tagged_vlans", tagged)?;
    made.put_flag(alloc, "unicast_flood", port.unicast_flood)?;
    Ok(made.into_json())
}

/// The interfaces of a datapath, under their numbers.
pub(crate) fn make_ports(alloc: Global, conf: &Conf, ports: &[Port]) -> Result<Json, NoMemory>
    ensures { IfOk result (λ made. made ≡ object (map (port_member conf.now) ports.now)) }
{
    let mut made = Object::new(alloc);
    for port in ports {
        let json = make_port(alloc, conf, port)?;
        put_numbered(&mut made, alloc, port.no.get(), json)?;
    }
    Ok(made.into_json())
}
