//! Gauge's configuration: the keys of its file as tables; the first fault of the file's tree, or what
//! it says; and with the configuration of the file that it names, what Gauge watches.
#![tactic(auto)]

mod conflicts;
mod faults;
mod forms;
mod gauge;
mod names;
mod raw;
mod reading;
mod resolving;
mod tables;
mod values;

pub use forms::{Form, Need, Part, Vocabulary};
pub use gauge::{Db, Dbs, GaugeConf, WatchKind, Watcher, Watchers};
pub use raw::{RawDb, RawDbs, RawGauge, RawWatcher, RawWatchers};
pub use reading::read_gauge;
pub use resolving::resolve_gauge;
pub use tables::{Row, rows_of, top_rows};
