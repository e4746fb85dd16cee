ghost use Rattle.std.specs.Prelude.{◌≡◌, map, IfOk};
ghost use Rattle.packet_way.specs.Known.{node_of, stack_of};

use conf_types::{Conf, Dp, UpRec};
use net_base::{Items, NoMemory, Node, Nodes};
use stack_paths::Paths;
use std::alloc::Global;

fn make_nodes(alloc: Global, dps: &[Dp]) -> Result<Nodes, NoMemory>
    ensures { IfOk result (λ nodes. nodes ≡ map node_of dps.now) }
{
    let mut nodes = Items::new(alloc);
    for dp in dps {
        nodes.push(Node {
            id: dp.id,
            priority: dp.stack_priority,
        })?;
    }
    Ok(nodes)
}

/// The paths of a configuration's datapaths, in the order of their names, with the stack links of
/// which both ends are up: those that `sends` asks for.
pub fn make_paths(alloc: Global, conf: &Conf, ups: &[UpRec]) -> Result<Paths, NoMemory>
    ensures { IfOk result (λ paths. paths ≡ stack_of conf.now ups.now) }
{
    let dps = conf.dps();
    let nodes = make_nodes(alloc, dps.as_slice())?;
    let links = conf.links(alloc, ups)?;
    Paths::new(alloc, nodes.as_slice(), links.as_slice())
}
