//! What is known of the switch on a connection.

ghost use Rattle.std.specs.Prelude.{◌≡◌, [], Some, None, true, OnOk};
ghost use Rattle.std.specs.Option.{option_copied};
ghost use Rattle.switch_session.specs.Connections.{opened};
ghost use Rattle.switch_session.specs.Told.{knows, told_of};
ghost use Rattle.probe_hub.specs.Peer.{asked, awaits_ports, described, fits, freed, hear_packet, heard, heard_open, heard_setup, introduced, is_of, is_same, losing, lost_all, lost_at, no_peer, port_changed, probed_port, released, released_all, retold};

use crate::links::{LinkEnd, Links};
use crate::marks::{Mark, Marks, is_over};
use crate::notices::{Notice, Notices};
use lldp_probe::{Probe, probe_read};
use net_base::{DpId, Moment, NoMemory, PortNo};
use of_match::in_port;
use of13_codec::{Message, PacketIn, PortDesc};
use std::alloc::Global;
use switch_session::{PortTold, Session, Stage, Step, is_up};

/// As many flow tables a switch has at least.
const TABLES: u8 = 9;

/// OFPPR_ADD and OFPPR_DELETE, the reasons of a PORT_STATUS for a port that is there now, and for one that is gone
/// (OpenFlow 1.3, 7.4.3).
const ADD: u8 = 0;

const DELETE: u8 = 1;

/// What is known of the switch on a connection.
#[derive(Drop)]
pub(crate) struct Peer {
    /// How far the connection is set up, and the ports that were told. It is fed no bytes.
    pub(crate) session: Session,
    /// The datapath that the switch said to be, where the configuration takes it.
    pub(crate) dp: Option<DpId>,
    /// The ports that it last told up.
    pub(crate) marks: Marks,
    /// What is still to be told in its stream.
    pub(crate) waiting: Notices,
}

/// Whether a connection is of this datapath.
pub(crate) fn is_of(of: Option<DpId>, dp: DpId) -> bool
    ensures { result ≡ is_of dp of }
{
    match of {
        Some(id) => id == dp,
        None => false,
    }
}

/// What is told of a port; `None` exactly where its number is that of none.
fn told_of(port: &PortDesc) -> Option<PortTold>
    ensures { result ≡ told_of port.now }
{
    let no = PortNo::new(port.no)?;
    Some(PortTold {
        no,
        up: is_up(port),
    })
}

fn knows(ports: &[PortTold], no: PortNo) -> bool
    ensures { result ≡ knows ports.now no }
{
    ports.iter().any(|port| port.no == no)
}

/// Whether a configuration takes a switch that says so of itself.
fn fits(links: &Links, dp: DpId, n_tables: u8, auxiliary: u8) -> bool
    ensures { result ≡ fits links.now dp n_tables auxiliary }
{
    links.has_dp(dp) && n_tables >= TABLES && auxiliary == 0
}

fn is_same(probe: Probe, other: Probe) -> bool
    ensures { result ≡ is_same probe other }
{
    probe.dp == other.dp && probe.port == other.port
}

/// The port on which a packet brought the probe of the other end of the link; `None` where it brought none.
fn probed_port(links: &Links, dp: Option<DpId>, packet: &PacketIn) -> Option<PortNo>
    ensures { result ≡ probed_port links.now dp packet.now }
{
    let dp = dp?;
    let port = in_port(packet.fields.as_slice())?;
    let probe = probe_read(packet.payload.as_slice())?;
    let end = links.end_at(dp, port)?;
    if is_same(end.far, probe) {
        Some(port)
    } else {
        None
    }
}

impl Peer {
    /// That of a connection which opened.
    pub(crate) fn new(alloc: Global) -> Peer
        ensures { result ≡ no_peer }
    {
        Peer {
            session: Session::open(alloc, Moment(0)),
            dp: None,
            marks: Marks::new(alloc),
            waiting: Notices::new(alloc),
        }
    }

    /// A port is told.
    fn tell_port(&mut self, moment: u64, port: PortTold) -> Result<(), NoMemory>
        ensures { OnOk result (self.new ≡ retold moment port self.old) }
    {
        let up = port.up && knows(self.session.ports(), port.no);
        self.waiting.forget(port.no);
        self.marks.tell(moment, port.no, up)
    }

    /// A port is told by a PORT_STATUS or a description.
    fn change_port(&mut self, moment: u64, reason: u8, port: &PortDesc) -> Result<(), NoMemory>
        ensures { OnOk result (self.new ≡ port_changed moment reason (told_of port.now) self.old) }
    {
        match told_of(port) {
            Some(told) => self.tell_port(
                moment,
                PortTold {
                    no: told.no,
                    up: told.up && reason != DELETE,
                },
            ),
            None => Ok(()),
        }
    }

    /// Ports are described.
    fn describe(&mut self, moment: u64, ports: &[PortDesc]) -> Result<(), NoMemory>
        ensures { OnOk result (self.new ≡ described moment ports.now self.old) }
    {
        for port in ports {
            self.change_port(moment, ADD, port)?;
        }
        Ok(())
    }

    /// The switch said what it is.
    fn introduce(&mut self, links: &Links, step: Step)
        ensures { self.new ≡ introduced links.now step self.old }
    {
        if let Step::Features {
            dp,
            n_tables,
            auxiliary,
        } = step
        {
            if fits(links, dp, n_tables, auxiliary) {
                self.dp = Some(dp);
            }
        }
    }

    /// Whether the ports' descriptions with this transaction id are awaited.
    fn awaits_ports(&self, xid: u32) -> bool
        ensures { result ≡ awaits_ports xid self.now }
    {
        let awaited = match self.session.awaited() {
            Some(id) => id == xid,
            None => false,
        };
        awaited && matches!(self.session.stage(), Stage::Ports)
    }

    /// Hears a message that is no packet.
    fn hear_setup(
        &mut self,
        links: &Links,
        moment: u64,
        message: &Message,
        xid: u32,
    ) -> Result<(), NoMemory>
        ensures { OnOk result (self.new ≡ heard_setup links.now moment message.now xid self.old) }
    {
        let awaited = self.awaits_ports(xid);
        let step = self.session.hear(message, xid)?;
        self.introduce(links, step);
        match message {
            Message::PortStatus { reason, port } => self.change_port(moment, *reason, port),
            Message::PortDescReply { ports, .. } if awaited => {
                self.describe(moment, ports.as_slice())
            }
            _ => Ok(()),
        }
    }

    /// A packet came in: what it says of a link.
    fn hear_packet(&mut self, links: &Links, moment: u64, packet: &PacketIn) -> Result<(), NoMemory>
        ensures { OnOk result (self.new ≡ hear_packet links.now moment packet.now self.old) }
    {
        let Some(port) = probed_port(links, self.dp, packet) else {
            return Ok(());
        };
        let lost = self.marks.is_lost(port);
        self.marks.put(Mark {
            no: port,
            since: moment,
            lost: false,
        });
        if lost {
            self.waiting.push(Notice { port, up: true })?;
        }
        Ok(())
    }

    fn hear_open(
        &mut self,
        links: &Links,
        moment: u64,
        message: &Message,
        xid: u32,
    ) -> Result<(), NoMemory>
        ensures { OnOk result (self.new ≡ heard_open links.now moment message.now xid self.old) }
    {
        match message {
            Message::PacketIn(packet) => self.hear_packet(links, moment, packet),
            _ => self.hear_setup(links, moment, message, xid),
        }
    }

    /// Hears a message at a moment. Behind one that ends the connection none counts.
    pub(crate) fn hear(
        &mut self,
        links: &Links,
        moment: u64,
        message: &Message,
        xid: u32,
    ) -> Result<(), NoMemory>
        ensures { OnOk result (self.new ≡ heard links.now moment message.now xid self.old) }
    {
        if matches!(self.session.stage(), Stage::Shut) {
            return Ok(());
        }
        self.hear_open(links, moment, message, xid)
    }

    /// The ports' descriptions were asked for with this transaction id.
    pub(crate) fn ask(&mut self, xid: u32)
        ensures { self.new ≡ asked xid self.old }
    {
        self.session.asked(xid);
    }

    /// The mark of an end's port, where it gets lost at this moment.
    fn losing(&self, moment: u64, end: &LinkEnd) -> Option<Mark>
        ensures { result ≡ losing moment end.now self.now }
    {
        let watch = end.watch?;
        if !is_of(self.dp, end.dp) {
            return None;
        }
        let mark = self.marks.of(end.port)?;
        if !mark.lost && is_over(mark.since, watch.window, moment) {
            Some(mark)
        } else {
            None
        }
    }

    /// The port of an end gets lost at this moment, where nothing was heard on it for its window.
    fn lose_at(&mut self, moment: u64, end: &LinkEnd) -> Result<(), NoMemory>
        ensures { OnOk result (self.new ≡ lost_at moment end.now self.old) }
    {
        let Some(mark) = self.losing(moment, end) else {
            return Ok(());
        };
        self.marks.put(Mark {
            no: mark.no,
            since: mark.since,
            lost: true,
        });
        self.waiting.push(Notice {
            port: end.port,
            up: false,
        })
    }

    /// Ports get lost at this moment, in the order of the ends.
    pub(crate) fn lose(&mut self, moment: u64, ends: &[LinkEnd]) -> Result<(), NoMemory>
        ensures { OnOk result (self.new ≡ lost_all moment ends.now self.old) }
    {
        for end in ends {
            self.lose_at(moment, end)?;
        }
        Ok(())
    }

    /// The mark of an end's port, where it is lost and isn't watched by new links.
    fn freed(&self, next: &Links, end: &LinkEnd) -> Option<Mark>
        ensures { result ≡ freed next.now.ends end.now self.now }
    {
        if !is_of(self.dp, end.dp) || next.is_watched(end.dp, end.port) {
            return None;
        }
        let mark = self.marks.of(end.port)?;
        if mark.lost { Some(mark) } else { None }
    }

    /// The port of an end isn't lost any more, where new links don't watch it.
    fn release_at(&mut self, next: &Links, end: &LinkEnd) -> Result<(), NoMemory>
        ensures { OnOk result (self.new ≡ released next.now.ends end.now self.old) }
    {
        let Some(mark) = self.freed(next, end) else {
            return Ok(());
        };
        self.marks.put(Mark {
            no: mark.no,
            since: mark.since,
            lost: false,
        });
        self.waiting.push(Notice {
            port: end.port,
            up: true,
        })
    }

    /// Ports that new links don't watch aren't lost any more, in the order of the ends so far.
    pub(crate) fn release(&mut self, next: &Links, ends: &[LinkEnd]) -> Result<(), NoMemory>
        ensures { OnOk result (self.new ≡ released_all next.now.ends ends.now self.old) }
    {
        for end in ends {
            self.release_at(next, end)?;
        }
        Ok(())
    }
}
