use net_base::{Bytes, Items, NoMemory, TryCopy};
use std::alloc::Global;

/// What a switch tells of a flow entry (OpenFlow 1.3, 7.3.5.2). `key` is its match as it stands in the
/// bytes, without padding.
#[derive(Debug, Drop)]
pub struct Flow {
    pub table: u8,
    pub priority: u16,
    pub cookie: u64,
    pub packets: u64,
    pub bytes: u64,
    pub key: Bytes,
}

impl TryCopy for Flow {
    fn copy(&self, alloc: Global) -> Result<Flow, NoMemory> {
        Ok(Flow {
            table: self.table,
            priority: self.priority,
            cookie: self.cookie,
            packets: self.packets,
            bytes: self.bytes,
            key: self.key.copy(alloc)?,
        })
    }
}

/// Flow entries, in the order in which they are told.
pub type Flows = Items<Flow>;

/// A part of a reply; more may follow.
#[derive(Debug, Drop)]
pub struct FlowPart {
    pub more: bool,
    pub flows: Flows,
}

impl TryCopy for FlowPart {
    fn copy(&self, alloc: Global) -> Result<FlowPart, NoMemory> {
        Ok(FlowPart {
            more: self.more,
            flows: self.flows.copy(alloc)?,
        })
    }
}
