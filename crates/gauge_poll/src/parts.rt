ghost use Rattle.std.specs.Prelude.{◌≡◌, ◌++◌, ℕ, IfOk, OnOk};
ghost use Rattle.gauge_poll.specs.Lines.{few_flows, few_ports};
ghost use Rattle.gauge_poll.specs.Newest.{waits_of};
ghost use Rattle.gauge_poll.specs.Polls.{no_part, with_at, without_conn};

use flow_stats::{Flow, Flows};
use net_base::{NoMemory, TryCopy};
use of13_codec::{PortStats, PortStatsList};
use prom_text::{counted_flows, counted_ports};
use std::alloc::Global;
use std::collections::BTreeMap;

/// Twice as many ports as can count.
const MANY_PORTS: usize = 8192;

/// Twice as many flow entries as can count.
const MANY_FLOWS: usize = 131_072;

/// The items of the parts that came of a reply, of which the last one didn't come.
#[derive(Debug, Drop)]
pub struct Waiting {
    pub ports: PortStatsList,
    pub flows: Flows,
}

impl Waiting {
    /// No item, which takes no memory yet.
    fn new(alloc: Global) -> Waiting
        ensures { result ≡ no_part }
    {
        Waiting {
            ports: PortStatsList::new(alloc),
            flows: Flows::new(alloc),
        }
    }
}

/// Adds the counters of ports.
pub(crate) fn add_ports(
    alloc: Global,
    list: &mut PortStatsList,
    ports: &[PortStats],
) -> Result<(), NoMemory>
    ensures { OnOk result (list.new ≡ list.old ++ ports.now) }
{
    for port in ports {
        list.push(port.copy(alloc)?)?;
    }
    Ok(())
}

/// Adds flow entries.
pub(crate) fn add_flows(alloc: Global, list: &mut Flows, flows: &[Flow]) -> Result<(), NoMemory>
    ensures { OnOk result (list.new ≡ list.old ++ flows.now) }
{
    for flow in flows {
        list.push(flow.copy(alloc)?)?;
    }
    Ok(())
}

/// The counters of ports that count alone, once they are more than twice as many as can count.
pub(crate) fn few_ports(alloc: Global, list: PortStatsList) -> Result<PortStatsList, NoMemory>
    ensures { IfOk result (λ few. few ≡ few_ports list) }
{
    if list.len() <= MANY_PORTS {
        return Ok(list);
    }
    counted_ports(alloc, list.as_slice())
}

/// The flow entries that count alone, once they are more than twice as many as can count.
pub(crate) fn few_flows(alloc: Global, list: Flows) -> Result<Flows, NoMemory>
    ensures { IfOk result (λ few. few ≡ few_flows list) }
{
    if list.len() <= MANY_FLOWS {
        return Ok(list);
    }
    counted_flows(alloc, list.as_slice())
}

/// What waits for each watcher, by the watcher's place.
type Waits = BTreeMap<usize, Waiting>;

/// What waits for each watcher on each connection.
#[derive(Drop)]
pub(crate) struct Parts {
    conns: BTreeMap<u32, Waits>,
}

impl Parts {
    /// Nothing waits, which takes no memory yet.
    pub(crate) fn new(alloc: Global) -> Parts
        ensures { (conn place : ℕ) → waits_of result conn place ≡ no_part }
    {
        Parts {
            conns: BTreeMap::new(alloc),
        }
    }

    /// Takes out what waits on a connection for the watcher at a place.
    pub(crate) fn take(
        &mut self,
        alloc: Global,
        conn: u32,
        place: usize,
    ) -> Result<Waiting, NoMemory>
        ensures taken { IfOk result (λ taken. taken ≡ waits_of self.old conn place) }
        ensures left { OnOk result ((c p : ℕ) → waits_of self.new c p ≡ with_at conn place no_part (waits_of self.old) c p) }
    {
        let Some(mut waits) = self.conns.remove(&conn) else {
            return Ok(Waiting::new(alloc));
        };
        let taken = waits.remove(&place);
        self.conns.insert(conn, waits)?;
        match taken {
            Some(waiting) => Ok(waiting),
            None => Ok(Waiting::new(alloc)),
        }
    }

    /// From now on this waits on a connection for the watcher at a place.
    pub(crate) fn put(
        &mut self,
        alloc: Global,
        conn: u32,
        place: usize,
        waiting: Waiting,
    ) -> Result<(), NoMemory>
        ensures { OnOk result ((c p : ℕ) → waits_of self.new c p ≡ with_at conn place waiting (waits_of self.old) c p) }
    {
        let mut waits = match self.conns.remove(&conn) {
            Some(waits) => waits,
            None => BTreeMap::new(alloc),
        };
        waits.insert(place, waiting)?;
        self.conns.insert(conn, waits)?;
        Ok(())
    }

    /// Forgets what waits on a connection.
    pub(crate) fn forget(&mut self, conn: u32)
        ensures { (c p : ℕ) → waits_of self.new c p ≡ without_conn conn (waits_of self.old) c p }
    {
        self.conns.remove(&conn);
    }
}
