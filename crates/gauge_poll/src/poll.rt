use gauge_conf::WatchKind;
use net_base::Moment;

/// A poll that was said.
#[derive(Clone, Copy, Debug)]
pub struct Poll {
    pub conn: u32,
    /// The place of its watcher, in the order of names.
    pub watcher: usize,
    /// What is asked for: what its watcher counts.
    pub kind: WatchKind,
    pub moment: Moment,
    /// Its transaction id.
    pub xid: u32,
}
