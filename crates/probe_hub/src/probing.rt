//! The probes that are said.

ghost use Rattle.std.specs.Prelude.{◌≡◌, ◌<◌, length, position, IfOk, IfSome, OnOk};
ghost use Rattle.std.specs.Option.{option_copied};
ghost use Rattle.probe_hub.specs.Probing.{due_on, is_last_of, is_ready, is_span_over, last_of, probe_bytes, probed_all, probed_at, probed_on, ready_conn, said_again, ttl_of};

use crate::conn::Conn;
use crate::links::LinkEnd;
use crate::marks::is_over;
use crate::peer::is_of;
use lldp_probe::probe_frame;
use net_base::{Bytes, DpId, Items, NoMemory, PortNo, TryCopy};
use of_match::{Action, Actions};
use of13_codec::{Message, PacketOut, encode};
use std::alloc::Global;
use switch_session::Stage;

/// OFP_NO_BUFFER: the packet stands in the message (OpenFlow 1.3, 7.3.7).
const NO_BUFFER: u32 = 0xffff_ffff;

/// OFPP_CONTROLLER, as the port that the packet came in by (7.2.1).
const CONTROLLER: u32 = 0xffff_fffd;

/// When the last probe of a port was said, in milliseconds.
#[derive(Clone, Copy, Debug)]
pub(crate) struct LastProbe {
    pub(crate) dp: DpId,
    pub(crate) port: PortNo,
    pub(crate) moment: u64,
}

impl TryCopy for LastProbe {
    fn copy(&self, _alloc: Global) -> Result<LastProbe, NoMemory> {
        Ok(*self)
    }
}

/// A message that is said on a connection.
#[derive(Debug, Drop)]
pub(crate) struct ProbeSaid {
    pub(crate) conn: u32,
    pub(crate) bytes: Bytes,
}

/// The probes that are said at a moment, and when the last one of each port was said.
#[derive(Drop)]
pub(crate) struct Probing {
    pub(crate) last: Items<LastProbe>,
    pub(crate) said: Items<ProbeSaid>,
}

fn is_last_of(last: &LastProbe, dp: DpId, port: PortNo) -> bool
    ensures { result ≡ is_last_of dp port last.now }
{
    last.dp == dp && last.port == port
}

fn last_of(last: &[LastProbe], dp: DpId, port: PortNo) -> Option<&LastProbe>
    ensures { option_copied result ≡ last_of dp port last.now }
{
    last.iter().find(|one| is_last_of(one, dp, port))
}

/// Where the last probe of a port stands.
fn place(last: &[LastProbe], dp: DpId, port: PortNo) -> Option<usize>
    ensures place { result ≡ position (is_last_of dp port) last.now }
    ensures within { IfSome result (λ at. at < length last.now) }
{
    last.iter().position(|one| is_last_of(one, dp, port))
}

/// Whether a connection is of a datapath whose ports are known.
fn is_ready(conn: &Conn, dp: DpId) -> bool
    ensures { result ≡ is_ready dp conn.now }
{
    is_of(conn.peer.dp, dp) && matches!(conn.peer.session.stage(), Stage::Wiping | Stage::Running)
}

fn ready_conn(conns: &[Conn], dp: DpId) -> Option<&Conn>
    ensures { option_copied result ≡ ready_conn dp conns.now }
{
    conns.iter().find(|conn| is_ready(conn, dp))
}

/// Whether so many seconds have passed since the last probe, or none was said.
fn is_span_over(last: Option<&LastProbe>, interval: u16, moment: u64) -> bool
    ensures { result ≡ is_span_over interval moment (option_copied last.entry) }
{
    match last {
        Some(last) => is_over(last.moment, u64::from(interval) * 1000, moment),
        None => true,
    }
}

/// For how many seconds a probe counts, by the seconds between two of them.
fn ttl_of(interval: u16) -> u16
    ensures { result ≡ ttl_of interval }
{
    interval.saturating_mul(3)
}

/// The message that has a port send its probe, with the transaction id 0.
fn make_probe(alloc: Global, end: &LinkEnd, interval: u16) -> Result<Bytes, NoMemory>
    ensures { IfOk result (λ bytes. bytes ≡ probe_bytes end.now interval) }
{
    let mut actions = Actions::new(alloc);
    actions.push(Action::Output {
        port: end.port.get(),
        max_len: 0,
    })?;
    let message = Message::PacketOut(PacketOut {
        buffer: NO_BUFFER,
        in_port: CONTROLLER,
        actions,
        payload: probe_frame(alloc, end.dp, end.port, ttl_of(interval))?,
    });
    let mut bytes = Bytes::new(alloc);
    encode(alloc, &message, 0, &mut bytes)?;
    Ok(bytes)
}

/// The connection on which the port of an end is to be probed now, with the seconds between two probes.
fn due_on(conns: &[Conn], last: &[LastProbe], moment: u64, end: &LinkEnd) -> Option<(u32, u16)>
    ensures { result ≡ due_on conns.now moment end.now last.now }
{
    let watch = end.watch?;
    let conn = ready_conn(conns, end.dp)?;
    if is_span_over(last_of(last, end.dp, end.port), watch.interval, moment) {
        Some((conn.number, watch.interval))
    } else {
        None
    }
}

impl Probing {
    /// The probe of a port is the last one, at this moment.
    fn note(&mut self, moment: u64, end: &LinkEnd) -> Result<(), NoMemory>
        ensures { OnOk result (self.new ≡ record self.old { last = said_again moment end.now self.old.last }) }
    {
        let last = LastProbe {
            dp: end.dp,
            port: end.port,
            moment,
        };
        match place(self.last.as_slice(), end.dp, end.port) {
            Some(at) => {
                self.last.set(at, last);
                Ok(())
            }
            None => self.last.push(last),
        }
    }

    /// The port of an end is probed, where that is due.
    fn probe(
        &mut self,
        alloc: Global,
        conns: &[Conn],
        moment: u64,
        end: &LinkEnd,
    ) -> Result<(), NoMemory>
        ensures { OnOk result (self.new ≡ probed_on conns.now moment end.now self.old) }
    {
        let Some((conn, interval)) = due_on(conns, self.last.as_slice(), moment, end) else {
            return Ok(());
        };
        let bytes = make_probe(alloc, end, interval)?;
        self.said.push(ProbeSaid { conn, bytes })?;
        self.note(moment, end)
    }

    /// The ports of ends are probed, in their order.
    pub(crate) fn probe_all(
        &mut self,
        alloc: Global,
        conns: &[Conn],
        moment: u64,
        ends: &[LinkEnd],
    ) -> Result<(), NoMemory>
        ensures { OnOk result (self.new ≡ probed_all conns.now moment ends.now self.old) }
    {
        for end in ends {
            self.probe(alloc, conns, moment, end)?;
        }
        Ok(())
    }
}
