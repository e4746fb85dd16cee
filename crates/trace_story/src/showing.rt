//! What is shown of a packet, by what a controller knows.

ghost use Rattle.std.specs.Prelude.{◌≡◌, Some, IfOk};
ghost use Rattle.ctl_world.specs.World.{World};
ghost use Rattle.trace_story.specs.Shown.{shown, traced_at, walked_from};

use crate::entry::dp_named;
use crate::lines::{put_arrivals, put_sents};
use crate::ready::{find_unready, is_ready};
use conf_types::{Dp, Tally};
use ctl_core::Controller;
use net_base::{NoMemory, PortNo, Text, TryCopy};
use net_walk::walk;
use of_match::{Packet, run};
use packet_way::make_paths;
use std::alloc::Global;

/// How far a packet is followed.
#[derive(Clone, Copy, Debug, PartialEq, Eq)]
pub enum How {
    /// To what the datapath sends that it comes in at.
    Trace,
    /// To where that arrives, over the links of the stack.
    Walk,
}

/// What is shown.
#[derive(Debug, Drop)]
pub enum Shown {
    /// Lines, each with its end.
    Lines(Text),
    /// The datapath of this name doesn't run, or a barrier is outstanding for it.
    NotReady(Text),
}

/// What a datapath sends.
fn trace(
    alloc: Global,
    core: &Controller,
    dp: &Dp,
    port: PortNo,
    packet: &Packet,
) -> Result<Shown, NoMemory>
    ensures { IfOk result (λ made. (w : World) → core.now ≡ Some w → made ≡ traced_at w dp.now port packet.now) }
{
    let running = core.running()?;
    if !is_ready(core, running.as_slice(), dp.id) {
        return Ok(Shown::NotReady(dp.name.copy(alloc)?));
    }
    let mut lines = Text::new(alloc);
    if let Some(tables) = core.tables_sent(dp.id) {
        let sents = run(alloc, tables, port, packet)?;
        put_sents(&mut lines, sents.as_slice())?;
    }
    Ok(Shown::Lines(lines))
}

/// Where a packet arrives that comes in at a datapath.
fn walk_from<T: Tally>(
    alloc: Global,
    core: &Controller,
    dp: &Dp,
    port: PortNo,
    packet: &Packet,
    units: &mut T,
) -> Result<Shown, NoMemory>
    requires known { (w : World) × (core.now ≡ Some w) }
    ensures { IfOk result (λ made. (w : World) → core.now ≡ Some w → made ≡ walked_from w dp.now port packet.now) }
{
    core.is_sound();
    let conf = core.conf();
    let running = core.running()?;
    let ups = core.ups()?;
    let paths = make_paths(alloc, conf, ups.as_slice())?;
    let dps = conf.dps().as_slice();
    if let Some(unready) = find_unready(core, running.as_slice(), &paths, dp.id, dps) {
        return Ok(Shown::NotReady(unready.name.copy(alloc)?));
    }
    let now = core.now(&running, &ups);
    let arrivals = walk(alloc, conf, &now, dp.id, port, packet, units)?;
    let mut lines = Text::new(alloc);
    put_arrivals(&mut lines, conf, arrivals.as_slice())?;
    Ok(Shown::Lines(lines))
}

/// What is shown of a packet that comes in by a port of the datapath with a name.
pub(crate) fn show<T: Tally>(
    alloc: Global,
    core: &Controller,
    how: How,
    dp: &str,
    port: PortNo,
    packet: &Packet,
    units: &mut T,
) -> Result<Shown, NoMemory>
    requires known { (w : World) × (core.now ≡ Some w) }
    ensures { IfOk result (λ made. (w : World) → core.now ≡ Some w → made ≡ shown how w dp.now port packet.now) }
{
    let Some(found) = dp_named(core.conf().dps().as_slice(), dp) else {
        return Ok(Shown::NotReady(Text::from_str(alloc, dp)?));
    };
    match how {
        How::Trace => trace(alloc, core, found, port, packet),
        How::Walk => walk_from(alloc, core, found, port, packet, units),
    }
}
