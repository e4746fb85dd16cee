use conf_types::{Conf, DpIds};
use net_base::{Items, NoMemory, Text, TryCopy};
use std::alloc::Global;

/// What a watcher writes down.
#[derive(Clone, Copy, Debug, PartialEq, Eq)]
pub enum WatchKind {
    /// Ports that go up or down.
    PortState,
    /// Counters of ports, each time that they are polled.
    PortStats,
    /// Counters of flow entries, each time that they are polled.
    FlowTable,
}

/// In which form a watcher writes.
#[derive(Debug, Drop)]
pub enum Db {
    /// A line for each value, with the name of this file.
    Text(Text),
    /// Blocks in Prometheus' text format.
    Prometheus,
}

impl TryCopy for Db {
    fn copy(&self, alloc: Global) -> Result<Db, NoMemory> {
        match self {
            Db::Text(file) => Ok(Db::Text(file.copy(alloc)?)),
            Db::Prometheus => Ok(Db::Prometheus),
        }
    }
}

/// Dbs in the order in which they are written to.
pub type Dbs = Items<Db>;

/// What is watched, and where it is written.
#[derive(Debug, Drop)]
pub struct Watcher {
    pub name: Text,
    pub kind: WatchKind,
    /// The datapaths that are watched, each once, ascending.
    pub dps: DpIds,
    /// Seconds from one poll to the next, 1 to 86,400.
    pub interval: u32,
    /// The dbs, each once, in the order in which the watcher first names them. Two may have one file.
    pub dbs: Dbs,
}

/// Watchers, ascending by the bytes of their names.
pub type Watchers = Items<Watcher>;

/// What Gauge watches, and the configuration of the switches.
#[derive(Debug, Drop)]
pub struct GaugeConf {
    pub watchers: Watchers,
    pub conf: Conf,
}
