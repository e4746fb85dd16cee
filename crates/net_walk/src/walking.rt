ghost use Rattle.std.specs.Prelude.{◌≡◌, ◌++◌, ◌+◌, ◌*◌, ◌≤◌, All, IfOk, OnOk, OnErr};
ghost use Rattle.of_match.specs.Pipeline.{first_run};
ghost use Rattle.conf_types.specs.Links.{links};
ghost use Rattle.conf_types.specs.State.{IsValidState};
ghost use Rattle.packet_way.specs.Present.{state_of};
ghost use Rattle.cold_start.specs.Cold.{cold_at};
ghost use Rattle.cold_start.specs.Counts.{RisesAtMost};
ghost use Rattle.net_walk.specs.Arrivals.{arrived, arrivals};
ghost use Rattle.net_walk.specs.Kept.{IsKept, all_units, units_left};

use crate::arrival::{Arrival, Arrivals};
use crate::kept::{Keeps, Kept, find_kept};
use crate::links::{far_end, is_stack_port};
use cold_start::cold;
use conf_types::{Conf, Tally};
use net_base::{DpId, NoMemory, PortNo, StackLink, TryCopy};
use of_match::{Packet, Sent, Sents, run};
use packet_way::Now;
use std::alloc::Global;

/// How many datapaths one behind another a walk comes to at most: as many as a configuration has.
pub const MOST_IN_A_ROW: u32 = 64;

/// What all steps of a walk go by.
#[derive(Drop)]
struct Walking<'a> {
    alloc: Global,
    conf: &'a Conf,
    learned: &'a Now<'a>,
    /// The stack links that are up.
    ups: &'a [StackLink],
    ghost right: { ups.now ≡ links conf.now learned.now.ups.now },
}

impl<'a> Walking<'a> {
    /// What a datapath sends of a packet that it took in, by the first in key order of several best entries.
    /// Its cold start is made where it isn't kept, and then kept.
    fn sends_of<T: Tally>(
        &self,
        kept: &mut Keeps,
        dp: DpId,
        port: PortNo,
        packet: &Packet,
        units: &mut T,
    ) -> Result<Sents, NoMemory>
        requires state { IsValidState self.now.conf.now (state_of self.now.learned.now) }
        requires kept { All (IsKept self.now.conf.now (state_of self.now.learned.now)) kept.old }
        ensures kept { OnOk result (All (IsKept self.now.conf.now (state_of self.now.learned.now)) kept.new) }
        ensures most { OnOk result (T.count units.new + 3 * units_left self.now.conf.now (state_of self.now.learned.now) kept.new ≤ T.count units.old + 3 * units_left self.now.conf.now (state_of self.now.learned.now) kept.old) }
        ensures most_of_all { OnErr result (T.count units.new ≤ T.count units.old + 3 * units_left self.now.conf.now (state_of self.now.learned.now) kept.old) }
        ensures sents { IfOk result (λ sents. sents ≡ first_run (cold_at self.now.conf.now (state_of self.now.learned.now) dp) port packet.now) }
    {
        if let Some(one) = find_kept(kept.as_slice(), dp) {
            return run(self.alloc, &one.tables, port, packet);
        }
        let tables = cold(self.alloc, self.conf, self.learned, dp, units)?;
        let sents = run(self.alloc, &tables, port, packet)?;
        kept.push(Kept { dp, tables })?;
        Ok(sents)
    }

    /// Adds what is sent by a port at which no link that is up begins: it arrives there, and by the end of a
    /// link that isn't up nowhere.
    fn push_sent(&self, out: &mut Arrivals, dp: DpId, sent: &Sent) -> Result<(), NoMemory>
        ensures { OnOk result (out.new ≡ out.old ++ arrived self.now.conf.now dp sent.now) }
    {
        if is_stack_port(self.conf, dp, sent.port) {
            return Ok(());
        }
        out.push(Arrival {
            dp,
            port: sent.port,
            packet: sent.packet.copy(self.alloc)?,
        })
    }

    /// Adds the arrivals of a packet that a datapath took in, over at most so many datapaths one behind another.
    fn push_arrivals<T: Tally>(
        &self,
        out: &mut Arrivals,
        kept: &mut Keeps,
        left: u32,
        dp: DpId,
        port: PortNo,
        packet: &Packet,
        units: &mut T,
    ) -> Result<(), NoMemory>
        requires state { IsValidState self.now.conf.now (state_of self.now.learned.now) }
        requires kept { All (IsKept self.now.conf.now (state_of self.now.learned.now)) kept.old }
        ensures kept { OnOk result (All (IsKept self.now.conf.now (state_of self.now.learned.now)) kept.new) }
        ensures most { OnOk result (T.count units.new + 3 * units_left self.now.conf.now (state_of self.now.learned.now) kept.new ≤ T.count units.old + 3 * units_left self.now.conf.now (state_of self.now.learned.now) kept.old) }
        ensures most_of_all { OnErr result (T.count units.new ≤ T.count units.old + 3 * units_left self.now.conf.now (state_of self.now.learned.now) kept.old) }
        ensures arrivals { OnOk result (out.new ≡ out.old ++ arrivals self.now.conf.now (state_of self.now.learned.now) left dp port packet.now) }
    {
        if left == 0 {
            return Ok(());
        }
        let sents = self.sends_of(kept, dp, port, packet, units)?;
        for sent in sents.as_slice() {
            match far_end(self.ups, dp, sent.port) {
                Some(far) => {
                    let packet = &sent.packet;
                    self.push_arrivals(out, kept, left - 1, far.dp, far.port, packet, units)?;
                }
                None => self.push_sent(out, dp, sent)?,
            }
        }
        Ok(())
    }
}

/// Where a packet arrives that a datapath took in by a port, by the cold starts of the datapaths in a state, of
/// several best entries by the first in key order: what is sent over a stack link that is up is taken in at
/// its other end, by at most 64 datapaths one behind another, what is sent by another end of a link is gone, and
/// each other send is one arrival. The order is that of the sends, each with all that comes of it in its
/// place. A datapath that isn't in the configuration sends nothing.
///
/// The cold start of each datapath that the packet comes to is made once, however often it comes there: at most
/// three units of work are counted for each unit of all datapaths.
pub fn walk<T: Tally>(
    alloc: Global,
    conf: &Conf,
    now: &Now,
    dp: DpId,
    port: PortNo,
    packet: &Packet,
    units: &mut T,
) -> Result<Arrivals, NoMemory>
    requires { IsValidState conf.now (state_of now.now) }
    ensures arrivals { IfOk result (λ made. made ≡ arrivals conf.now (state_of now.now) 64 dp port packet.now) }
    ensures most { RisesAtMost (3 * all_units conf.now (state_of now.now)) (T.count units.old) (T.count units.new) }
{
    let links = conf.links(alloc, now.ups.as_slice())?;
    let walking = Walking {
        alloc,
        conf,
        learned: now,
        ups: links.as_slice(),
    };
    let mut out = Arrivals::new(alloc);
    let mut kept = Keeps::new(alloc);
    walking.push_arrivals(&mut out, &mut kept, MOST_IN_A_ROW, dp, port, packet, units)?;
    Ok(out)
}
