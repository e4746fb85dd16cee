//! Gauge's file as it is written: names that aren't resolved yet.

use crate::gauge::{Db, WatchKind};
use net_base::{Items, Names, Text};

/// A watcher as it is written.
#[derive(Debug, Drop)]
pub struct RawWatcher {
    pub name: Text,
    pub kind: WatchKind,
    /// `dps`, where it is given.
    pub dps: Option<Names>,
    /// Whether `all_dps` is given.
    pub all_dps: bool,
    /// `db`, where it is given.
    pub db: Option<Text>,
    /// `dbs`, where it is given.
    pub dbs: Option<Names>,
    /// Seconds from one poll to the next.
    pub interval: u32,
}

/// Watchers as they are written.
pub type RawWatchers = Items<RawWatcher>;

/// A db as it is written.
#[derive(Debug, Drop)]
pub struct RawDb {
    pub name: Text,
    pub db: Db,
}

/// Dbs as they are written, in the order of the text.
pub type RawDbs = Items<RawDb>;

/// Gauge's file as it is written.
#[derive(Debug, Drop)]
pub struct RawGauge {
    /// The name of the file of the switches' configuration.
    pub faucet_config: Text,
    /// The watchers, ascending by the bytes of their names.
    pub watchers: RawWatchers,
    pub dbs: RawDbs,
}
