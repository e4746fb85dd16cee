use net_base::{Bytes, PortNo, Text};
use trace_story::How;

/// What `trace` and `walk` are asked for, lent by their job: what becomes of a frame that comes in by a port of a
/// datapath, behind what a recording tells to the controller of a configuration file.
#[derive(Clone, Copy)]
pub struct Asked<'a> {
    pub how: How,
    pub config: &'a Text,
    pub recording: &'a Text,
    /// The name of the datapath.
    pub dp: &'a Text,
    pub port: PortNo,
    pub frame: &'a Bytes,
}
