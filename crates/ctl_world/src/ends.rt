ghost use Rattle.std.specs.Prelude.{◌≡◌, ◌==◌, ◌&&◌, ◌++◌, ◌∷◌, [], codes, filter, not, IfOk, OnOk};
ghost use Rattle.std.specs.Fmt.{decimal};
ghost use Rattle.std.specs.List.{find, list_any};
ghost use Rattle.std.specs.Option.{option_copied};
ghost use Rattle.conf_types.specs.State.{is_host_at, is_running};
ghost use Rattle.ctl_world.specs.Ends.{close, closing_text, drop_conn, end_line, ended, forget_lost, is_reached, stands};
ghost use Rattle.ctl_world.specs.Lost.{is_at_any, lost_ports, with_lost};

use crate::said::Said;
use crate::world::World;
use conf_types::{Conf, HostRec, NeighRec, UpRec, UpRecs, is_up};
use host_learn::HostTable;
use itoa::Buffer;
use neighbour_resolve::Neighbours;
use net_base::{DpId, NoMemory, Text};
use std::alloc::Global;
use switch_session::Closing;

fn is_running(running: &[DpId], dp: DpId) -> bool
    ensures { result ≡ is_running running.now dp }
{
    running.iter().any(|other| *other == dp)
}

fn stands(running: &[DpId], ups: &[UpRec], host: &HostRec) -> bool
    ensures { result ≡ stands running.now ups.now host.now }
{
    is_running(running, host.dp) && is_up(ups, host.dp, host.port)
}

fn is_at(host: &HostRec, port: &UpRec) -> bool
    ensures { result ≡ is_host_at port.now.dp port.now.port host.now }
{
    host.dp == port.dp && host.port == port.port
}

fn is_at_any(ports: &[UpRec], host: &HostRec) -> bool
    ensures { result ≡ is_at_any ports.now host.now }
{
    ports.iter().any(|port| is_at(host, port))
}

fn note_lost(
    lost: &mut UpRecs,
    running: &[DpId],
    ups: &[UpRec],
    host: &HostRec,
) -> Result<(), NoMemory>
    ensures { OnOk result (lost.new ≡ with_lost running.now ups.now lost.old host.now) }
{
    if stands(running, ups, host) || is_at_any(lost.as_slice(), host) {
        return Ok(());
    }
    lost.push(UpRec {
        dp: host.dp,
        port: host.port,
    })
}

/// The ports of the hosts that don't stand where they may, each once.
fn lost_ports(
    alloc: Global,
    hosts: &HostTable,
    running: &[DpId],
    ups: &[UpRec],
) -> Result<UpRecs, NoMemory>
    ensures { IfOk result (λ lost. lost ≡ lost_ports running.now ups.now hosts.now.hosts) }
{
    let mut lost = UpRecs::new(alloc);
    for host in hosts.iter() {
        note_lost(&mut lost, running, ups, host)?;
    }
    Ok(lost)
}

fn forget_ports(hosts: &mut HostTable, ports: &[UpRec])
    ensures { hosts.new ≡ record hosts.old { hosts = filter (λ h. not (is_at_any ports.now h)) hosts.old.hosts } }
{
    for port in ports {
        hosts.forget_port(port.dp, port.port);
    }
}

/// Forgets the hosts that don't stand where they may.
fn forget_hosts(
    alloc: Global,
    hosts: &mut HostTable,
    running: &[DpId],
    ups: &[UpRec],
) -> Result<(), NoMemory>
    ensures { OnOk result (hosts.new ≡ record hosts.old { hosts = filter (stands running.now ups.now) hosts.old.hosts }) }
{
    let lost = lost_ports(alloc, hosts, running, ups)?;
    forget_ports(hosts, lost.as_slice());
    Ok(())
}

fn is_reached(conf: &Conf, running: &[DpId], neighbour: &NeighRec) -> bool
    ensures { result ≡ is_reached conf.now running.now neighbour.now }
{
    running
        .iter()
        .any(|dp| conf.group_number(*dp) == neighbour.group)
}

fn first_unreached(neighbours: &[NeighRec], conf: &Conf, running: &[DpId]) -> Option<NeighRec>
    ensures { result ≡ find (λ n. not (is_reached conf.now running.now n)) neighbours.now }
{
    neighbours
        .iter()
        .copied()
        .find(|neighbour| !is_reached(conf, running, neighbour))
}

/// Forgets the neighbours of groups of which no datapath runs.
fn forget_neighbours(neighbours: &mut Neighbours, conf: &Conf, running: &[DpId])
    ensures { neighbours.new ≡ record neighbours.old { neighbours = filter (is_reached conf.now running.now) neighbours.old.neighbours } }
{
    while let Some(neighbour) = first_unreached(neighbours.list(), conf, running) {
        neighbours.forget_group(neighbour.group);
    }
}

/// Adds the closing's name, and for an error its type and code.
fn put_closing(text: &mut Text, cause: Closing) -> Result<(), NoMemory>
    ensures { OnOk result (text.new ≡ text.old ++ closing_text cause) }
{
    text.append(cause.name())?;
    if let Closing::SwitchError { kind, code } = cause {
        text.append(" ")?;
        text.append(Buffer::new().format(kind))?;
        text.append(" ")?;
        text.append(Buffer::new().format(code))?;
    }
    Ok(())
}

fn make_line(alloc: Global, conn: u32, cause: Closing) -> Result<Said, NoMemory>
    ensures { IfOk result (λ said. said ≡ end_line conn cause) }
{
    let mut text = Text::from_str(alloc, "conn ")?;
    text.append(Buffer::new().format(conn))?;
    text.append(": ")?;
    put_closing(&mut text, cause)?;
    Ok(Said::Line(text))
}

impl World {
    /// Forgets the hosts of interfaces that aren't up and of datapaths that don't run, and the neighbours
    /// of groups of which no datapath runs. After `NoMemory` nothing is known of what is
    /// left.
    pub fn forget_lost(&mut self, alloc: Global) -> Result<(), NoMemory>
        ensures { OnOk result (self.new ≡ forget_lost self.old) }
    {
        let running = self.running(alloc)?;
        let ups = self.ups(alloc)?;
        forget_hosts(alloc, &mut self.hosts, running.as_slice(), ups.as_slice())?;
        forget_neighbours(&mut self.neighbours, &self.conf, running.as_slice());
        Ok(())
    }

    fn drop_conn(&mut self, alloc: Global, conn: u32) -> Result<(), NoMemory>
        ensures { OnOk result (self.new ≡ drop_conn conn self.old) }
    {
        self.conns.remove(conn);
        self.forget_lost(alloc)
    }

    /// Closes a connection, and says so in a line. What was known through it is forgotten. After
    /// `NoMemory` nothing is known of what is left.
    pub fn close(&mut self, alloc: Global, cause: Closing, conn: u32) -> Result<(), NoMemory>
        ensures { OnOk result (self.new ≡ close cause conn self.old) }
    {
        self.drop_conn(alloc, conn)?;
        self.said.push(Said::Closing { conn, cause })?;
        self.said.push(make_line(alloc, conn, cause)?)
    }

    /// A connection ended by itself: a line says so, and what was known through it is forgotten.
    pub fn end(&mut self, alloc: Global, cause: Closing, conn: u32) -> Result<(), NoMemory>
        ensures { OnOk result (self.new ≡ ended cause conn self.old) }
    {
        self.drop_conn(alloc, conn)?;
        self.said.push(make_line(alloc, conn, cause)?)
    }
}
