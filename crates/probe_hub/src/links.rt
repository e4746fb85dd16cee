//! The links of a stack, as a configuration has them.

ghost use Rattle.std.specs.Prelude.{◌≡◌, ◌==◌, []};
ghost use Rattle.std.specs.List.{list_any};
ghost use Rattle.std.specs.Option.{option_copied};
ghost use Rattle.probe_hub.specs.Links.{end_at, has_dp, has_end_of, is_at, is_watched, watch_of};

use lldp_probe::Probe;
use net_base::{DpId, Items, NoMemory, PortNo, TryCopy};
use std::alloc::Global;

/// How a link is watched from one of its ends.
#[derive(Clone, Copy, Debug)]
pub struct LinkWatch {
    /// For how many milliseconds a probe of the other end counts.
    pub window: u64,
    /// How many seconds lie between two probes that are said.
    pub interval: u16,
}

/// The end of a link: a port of a datapath.
#[derive(Clone, Copy, Debug)]
pub struct LinkEnd {
    pub dp: DpId,
    pub port: PortNo,
    /// The other end, as its probes name it.
    pub far: Probe,
    /// How the link is watched from here; `None` where it isn't.
    pub watch: Option<LinkWatch>,
}

impl TryCopy for LinkEnd {
    fn copy(&self, _alloc: Global) -> Result<LinkEnd, NoMemory> {
        Ok(*self)
    }
}

/// A list of ends of links.
pub type LinkEnds = Items<LinkEnd>;

/// What a configuration says of links.
#[derive(Debug, Drop)]
pub struct Links {
    /// All datapaths.
    pub dps: Items<DpId>,
    /// The ends of links, by datapath and port.
    pub ends: LinkEnds,
}

impl TryCopy for Links {
    fn copy(&self, alloc: Global) -> Result<Links, NoMemory> {
        Ok(Links {
            dps: self.dps.copy(alloc)?,
            ends: self.ends.copy(alloc)?,
        })
    }
}

/// Whether it is the end at a port.
fn is_at(end: &LinkEnd, dp: DpId, port: PortNo) -> bool
    ensures { result ≡ is_at dp port end.now }
{
    end.dp == dp && end.port == port
}

/// The first end at a port.
fn end_at(ends: &[LinkEnd], dp: DpId, port: PortNo) -> Option<&LinkEnd>
    ensures { option_copied result ≡ end_at ends.now dp port }
{
    ends.iter().find(|end| is_at(end, dp, port))
}

fn has_dp(dps: &[DpId], dp: DpId) -> bool
    ensures { result ≡ has_dp dps.now dp }
{
    dps.iter().any(|id| *id == dp)
}

fn has_end_of(ends: &[LinkEnd], dp: DpId) -> bool
    ensures { result ≡ has_end_of ends.now dp }
{
    ends.iter().any(|end| end.dp == dp)
}

fn is_watched_from(end: Option<&LinkEnd>) -> bool
    ensures { result ≡ watch_of (option_copied end.entry) }
{
    match end {
        Some(end) => end.watch.is_some(),
        None => false,
    }
}

impl Links {
    /// None, and no datapath.
    pub fn none(alloc: Global) -> Links
        ensures { result ≡ record { dps = []; ends = [] } }
    {
        Links {
            dps: Items::new(alloc),
            ends: Items::new(alloc),
        }
    }

    /// Whether there is a datapath with this identifier.
    pub(crate) fn has_dp(&self, dp: DpId) -> bool
        ensures { result ≡ has_dp self.now.dps dp }
    {
        has_dp(self.dps.as_slice(), dp)
    }

    /// Whether a link ends at the datapath.
    pub(crate) fn has_end_of(&self, dp: DpId) -> bool
        ensures { result ≡ has_end_of self.now.ends dp }
    {
        has_end_of(self.ends.as_slice(), dp)
    }

    /// The end at a port; `None` exactly where no link ends there.
    pub(crate) fn end_at(&self, dp: DpId, port: PortNo) -> Option<&LinkEnd>
        ensures { option_copied result ≡ end_at self.now.ends dp port }
    {
        end_at(self.ends.as_slice(), dp, port)
    }

    /// Whether a link is watched from a port.
    pub(crate) fn is_watched(&self, dp: DpId, port: PortNo) -> bool
        ensures { result ≡ is_watched self.now.ends dp port }
    {
        is_watched_from(self.end_at(dp, port))
    }
}
