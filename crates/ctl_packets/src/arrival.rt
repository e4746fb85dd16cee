use net_base::{DpId, PortNo, Vid};

/// Where a frame came from: the connection that a switch sent it on, the datapath that the switch is, the port
/// that it came in by, and the VLAN that it counts in.
#[derive(Clone, Copy)]
pub(crate) struct Arrival {
    pub(crate) conn: u32,
    pub(crate) dp: DpId,
    pub(crate) port: PortNo,
    pub(crate) vid: Vid,
}
