ghost use Rattle.std.specs.Prelude.{◌≡◌, IfOk};
ghost use Rattle.ctl_world.specs.World.{first};

use crate::conns::Conns;
use crate::said::Saids;
use conf_types::{Conf, MOST_HOSTS};
use host_learn::HostTable;
use neighbour_resolve::Neighbours;
use net_base::{Moment, NoMemory};
use std::alloc::Global;

/// As many neighbours are wanted and known at most.
const MOST_NEIGHBOURS: u32 = 2048;

/// What a controller knows, and what it has said in the present turn.
#[derive(Drop)]
pub struct World {
    pub conf: Conf,
    /// The moment that the clock showed last, in milliseconds.
    pub moment: Moment,
    pub conns: Conns,
    pub hosts: HostTable,
    pub neighbours: Neighbours,
    /// What was said since the turn began.
    pub said: Saids,
}

impl World {
    /// What is known where nothing happened yet.
    pub fn new(alloc: Global, conf: Conf) -> Result<World, NoMemory>
        ensures { IfOk result (λ w. w ≡ first conf) }
    {
        let hosts = HostTable::new(alloc, MOST_HOSTS as u32)?;
        let neighbours = Neighbours::new(alloc, MOST_NEIGHBOURS)?;
        Ok(World {
            conf,
            moment: Moment(0),
            conns: Conns::new(alloc),
            hosts,
            neighbours,
            said: Saids::new(alloc),
        })
    }
}
