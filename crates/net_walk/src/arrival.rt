use net_base::{DpId, Items, NoMemory, TryCopy};
use of_match::Packet;
use std::alloc::Global;

/// A packet that leaves the stack: by an edge port of a datapath, by one that mirrors others, or to the
/// controller.
#[derive(Debug, Drop)]
pub struct Arrival {
    pub dp: DpId,
    /// The number of the port; that of the controller is `of_match::CONTROLLER`.
    pub port: u32,
    pub packet: Packet,
}

/// Arrivals, in the order of the walk that leads to them.
pub type Arrivals = Items<Arrival>;

impl TryCopy for Arrival {
    fn copy(&self, alloc: Global) -> Result<Arrival, NoMemory> {
        Ok(Arrival {
            dp: self.dp,
            port: self.port,
            packet: self.packet.copy(alloc)?,
        })
    }
}
