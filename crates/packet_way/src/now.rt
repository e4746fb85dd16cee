use conf_types::{DpIds, NeighRec, UpRecs};
use host_list::Hosts;
use net_base::Moment;

/// What a controller has learned up to a moment, lent by whoever keeps it.
#[derive(Clone, Copy, Debug)]
pub struct Now<'a> {
    pub moment: Moment,
    /// The datapaths that are connected and hold their entries.
    pub running: &'a DpIds,
    /// The ports that are up.
    pub ups: &'a UpRecs,
    /// The hosts, in the order of learning.
    pub hosts: &'a Hosts,
    /// The neighbours, in the order of adding.
    pub neighbours: &'a [NeighRec],
}
