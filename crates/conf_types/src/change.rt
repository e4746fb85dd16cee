//! What may differ between two states.

use crate::address::Ip;
use net_base::{DpId, Mac, PortNo, Vid};

/// A part of the state that differs, or may differ, from the state that was handed in last.
#[derive(Clone, Copy, Debug, PartialEq, Eq)]
pub enum Change {
    /// The host with this key: it was learned, moved or forgotten, or turned stale or fresh.
    Host { group: DpId, vid: Vid, mac: Mac },
    /// Whether the port is up.
    Port { dp: DpId, port: PortNo },
    /// Whether the datapath runs.
    Dp(DpId),
    /// The neighbour with this key: its Ethernet address.
    Neighbour { group: DpId, vid: Vid, ip: Ip },
}
