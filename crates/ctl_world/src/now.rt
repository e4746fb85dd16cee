//! Which datapaths run and which interfaces are up, by what the connections told.

ghost use Rattle.std.specs.Prelude.{◌≡◌, ◌==◌, ◌&&◌, ◌++◌, map, filter, IfOk, OnOk};
ghost use Rattle.std.specs.List.{flat_map, list_any};
ghost use Rattle.conf_types.specs.Links.{is_up};
ghost use Rattle.conf_types.specs.State.{is_running, IsValidState};
ghost use Rattle.conf_types.specs.Valid.{IsValid};
ghost use Rattle.packet_way.specs.Present.{state_of};
ghost use Rattle.ctl_world.specs.World.{has_ports, is_at_work, is_up_by, now, runs, running, running_of, ups, ups_by, ups_on};
ghost use Rattle.ctl_world.specs.UpPorts.{is_up_among};

use crate::conns::{Conn, Conns};
use crate::up_ports::UpPorts;
use crate::world::World;
use conf_types::{Conf, Dp, DpIds, Port, UpRec, UpRecs};
use net_base::{DpId, NoMemory, PortNo};
use packet_way::Now;
use std::alloc::Global;
use switch_session::{PortTold, Stage};

fn runs(stage: Stage) -> bool
    ensures { result ≡ runs stage }
{
    matches!(stage, Stage::Running)
}

fn has_ports(stage: Stage) -> bool
    ensures { result ≡ has_ports stage }
{
    matches!(stage, Stage::Wiping | Stage::Running)
}

fn is_at_work(conns: &Conns, dp: &Dp) -> bool
    ensures { result ≡ is_at_work conns.now dp.now }
{
    match conns.of(dp.id) {
        Some(conn) => runs(conn.session.stage()),
        None => false,
    }
}

fn running_of(alloc: Global, conf: &Conf, conns: &Conns) -> Result<Vec<DpId>, NoMemory>
    ensures { IfOk result (λ ids. ids.items ≡ running_of conf.now conns.now) }
{
    conf.dps()
        .as_slice()
        .iter()
        .filter(|dp| is_at_work(conns, dp))
        .map(|dp| dp.id)
        .collect(alloc)
}

fn is_up_among(up: &UpPorts, port: &Port) -> bool
    ensures { result ≡ is_up_among up.now port.now }
{
    up.has(port.no) || !port.opstatus_reconf
}

fn ups_among(alloc: Global, dp: &Dp, up: &UpPorts) -> Result<Vec<UpRec>, NoMemory>
    ensures { IfOk result (λ ups. ups.items ≡ map (λ p. record { dp = dp.now.id; port = p.no }) (filter (is_up_among up.now) dp.now.ports)) }
{
    let id = dp.id;
    dp.ports
        .as_slice()
        .iter()
        .filter(|port| is_up_among(up, port))
        .map(|port| UpRec {
            dp: id,
            port: port.no,
        })
        .collect(alloc)
}

fn told_ups(alloc: Global, dp: &Dp, told: &[PortTold]) -> Result<Vec<UpRec>, NoMemory>
    ensures { IfOk result (λ ups. ups.items ≡ map (λ p. record { dp = dp.now.id; port = p.no }) (filter (is_up_by told.now) dp.now.ports)) }
{
    let up = UpPorts::of(alloc, told)?;
    ups_among(alloc, dp, &up)
}

fn push_ups(ups: &mut UpRecs, alloc: Global, dp: &Dp, conn: &Conn) -> Result<(), NoMemory>
    ensures { OnOk result (ups.new ≡ ups.old ++ ups_by dp.now conn.now) }
{
    if !has_ports(conn.session.stage()) {
        return Ok(());
    }
    let made = told_ups(alloc, dp, conn.session.ports())?;
    ups.append(made.as_slice())
}

fn push_ups_on(ups: &mut UpRecs, alloc: Global, conns: &Conns, dp: &Dp) -> Result<(), NoMemory>
    ensures { OnOk result (ups.new ≡ ups.old ++ ups_on conns.now dp.now) }
{
    match conns.of(dp.id) {
        Some(conn) => push_ups(ups, alloc, dp, conn),
        None => Ok(()),
    }
}

#[tactic(auto, using(crate::proofs::Steps::flat_more))]
fn ups_of(alloc: Global, dps: &[Dp], conns: &Conns) -> Result<UpRecs, NoMemory>
    ensures { IfOk result (λ ups. ups ≡ flat_map (ups_on conns.now) dps.now) }
{
    let mut ups = UpRecs::new(alloc);
    for dp in dps {
        push_ups_on(&mut ups, alloc, conns, dp)?;
    }
    Ok(ups)
}

/// Whether a switch told that its port with this number is up.
fn is_told_up(told: &[PortTold], no: PortNo) -> bool
    ensures { result ≡ list_any (λ port. port.no == no && port.up) told.now }
{
    told.iter().any(|port| port.no == no && port.up)
}

fn is_up_by(told: &[PortTold], port: &Port) -> bool
    ensures { result ≡ is_up_by told.now port.now }
{
    is_told_up(told, port.no) || !port.opstatus_reconf
}

fn is_one_up(ports: &[Port], told: &[PortTold], no: PortNo) -> bool
    ensures { result ≡ list_any (λ p. p.no == no && is_up_by told.now p) ports.now }
{
    ports
        .iter()
        .any(|port| port.no == no && is_up_by(told, port))
}

/// Whether the interface of a datapath with this number is up by what its connection tells.
fn has_up(conn: &Conn, dp: &Dp, no: PortNo) -> bool
    ensures { result ≡ is_up (ups_by dp.now conn.now) dp.now.id no }
{
    has_ports(conn.session.stage()) && is_one_up(dp.ports.as_slice(), conn.session.ports(), no)
}

fn a_configuration_is_valid(conf: &Conf)
    ensures { IsValid conf.now }
{
    let _ = conf.dps();
}

impl World {
    /// Whether a datapath runs.
    pub fn has_running(&self, dp: DpId) -> bool
        ensures { result ≡ is_running (running self.now) dp }
    {
        a_configuration_is_valid(&self.conf);
        match self.conf.dp(dp) {
            Some(found) => is_at_work(&self.conns, found),
            None => false,
        }
    }

    /// Whether the interface of a datapath with this number is up.
    pub fn has_up(&self, dp: DpId, port: PortNo) -> bool
        ensures { result ≡ is_up (ups self.now) dp port }
    {
        a_configuration_is_valid(&self.conf);
        let Some(found) = self.conf.dp(dp) else {
            return false;
        };
        match self.conns.of(found.id) {
            Some(conn) => has_up(conn, found, port),
            None => false,
        }
    }

    /// The datapaths that run, in the order of the configuration.
    pub fn running(&self, alloc: Global) -> Result<DpIds, NoMemory>
        ensures { IfOk result (λ ids. ids ≡ running self.now) }
    {
        let ids = running_of(alloc, &self.conf, &self.conns)?;
        Ok(DpIds::from(ids))
    }

    /// The interfaces that are up, in the order of the configuration.
    pub fn ups(&self, alloc: Global) -> Result<UpRecs, NoMemory>
        ensures { IfOk result (λ made. made ≡ ups self.now) }
    {
        ups_of(alloc, self.conf.dps().as_slice(), &self.conns)
    }

    /// The state by which flow entries are made, where `dps` are the datapaths that run and `ports` the
    /// interfaces that are up.
    pub fn now<'a>(&'a self, dps: &'a DpIds, ports: &'a UpRecs) -> Now<'a>
        ensures { dps.now ≡ running self.now → ports.now ≡ ups self.now → state_of result ≡ now self.now }
    {
        Now {
            moment: self.moment,
            running: dps,
            ups: ports,
            hosts: self.hosts.as_hosts(),
            neighbours: self.neighbours.list(),
        }
    }
}
