ghost use Rattle.std.specs.Prelude.{◌≡◌, ◌≢◌, ◌≤◌, false, Ok, IfOk, OnOk, OnErr};
ghost use Rattle.fg_outside.specs.Counts.{Rose};
ghost use Rattle.fg_outside.specs.declared.hub.Said.TheVariants.{Memory};
ghost use Rattle.fg_outside.specs.HubStep.{said, turned};
ghost use Rattle.probe_hub.specs.Says.{SaysAll, SaysOne, SaysPart};

use crate::known::Known;
use crate::links::Links;
use crate::probing::ProbeSaid;
use crate::reader::ReadsLinks;
use fg_outside::{Happening, Hub, Said, Turn};
use net_base::NoMemory;
use std::alloc::{AllocError, Global};

/// A hub on which the links of a stack are probed. It passes on what happens at its hub and what is said on it. With
/// each moment, before that is handed on, it has each port that is watched send its probe, where one is due; where
/// for a port's window no probe of the other end came in, the port is told down by a PORT_STATUS in the stream of
/// its switch, and up again once one comes in, or once a configuration doesn't watch it. Such a message comes behind
/// what caused it, but never inside a frame: bytes that came are cut at that frame's end.
///
/// Once it answered want of memory it is spent: each later turn and each piece said is answered so too.
#[derive(Drop)]
pub struct ProbeHub<H, R> {
    alloc: Global,
    hub: H,
    reader: R,
    known: Known,
    spent: bool,
}

/// Says a probe on a hub. A connection that is gone is passed over.
fn say_one<H: Hub>(hub: &mut H, probe: &ProbeSaid) -> Result<(), NoMemory>
    ensures ok { OnOk result (SaysOne H.may hub.old probe.now hub.new) }
    ensures err { OnErr result (H.may hub.old (said probe.now.conn probe.now.bytes Memory) hub.new) }
    ensures faults { H.faults hub.new ≡ H.faults hub.old }
{
    match hub.say(probe.conn, probe.bytes.as_slice()) {
        Said::Taken => Ok(()),
        Said::Gone => Ok(()),
        Said::Memory => Err(AllocError),
    }
}

/// Says probes on a hub, in order.
fn say_all<H: Hub>(hub: &mut H, probes: &[ProbeSaid]) -> Result<(), NoMemory>
    ensures ok { OnOk result (SaysAll H.may hub.old probes.now hub.new) }
    ensures err { OnErr result (SaysPart H.may hub.old probes.now hub.new) }
    ensures faults { H.faults hub.new ≡ H.faults hub.old }
{
    for probe in probes {
        say_one(hub, probe)?;
    }
    Ok(())
}

impl<H: Hub, R: ReadsLinks> ProbeHub<H, R> {
    ghost use Rattle.probe_hub.specs.ProbeHub.{hub_in, known_in, reader_in, is_spent, Does, GoesAlong, IsAsked, PassesOn};
    ghost use Rattle.probe_hub.specs.Known.{after, begun, probes, renewed};

    /// A hub on which no link is watched yet, and what reads the links of configurations.
    pub fn new(alloc: Global, hub: H, reader: R) -> ProbeHub<H, R>
        ensures hub { hub_in result ≡ hub }
        ensures reader { reader_in result ≡ reader }
        ensures known { known_in result ≡ begun }
        ensures running { is_spent result ≡ false }
    {
        ProbeHub {
            alloc,
            hub,
            reader,
            known: Known::new(alloc),
            spent: false,
        }
    }

    /// The links are these from now on.
    pub fn set(&mut self, links: Links) -> Result<(), NoMemory>
        ensures ok { OnOk result (known_in self.new ≡ renewed links (known_in self.old)) }
        ensures hub { hub_in self.new ≡ hub_in self.old }
        ensures reader { reader_in self.new ≡ reader_in self.old }
        ensures spent { is_spent self.new ≡ is_spent self.old }
    {
        self.known.renew(links)
    }

    /// The hub, and what reads configurations.
    pub fn into_parts(self) -> (H, R)
        ensures hub { result.0 ≡ hub_in self }
        ensures reader { result.1 ≡ reader_in self }
    {
        (self.hub, self.reader)
    }

    // Takes in what happened at the hub, and has the probes said that come with it.
    fn pass_on(&mut self, it: Happening) -> Result<Happening, NoMemory>
        ensures ok { IfOk result (λ given. PassesOn H.may R.links_of self.old it given self.new) }
        ensures err { OnErr result (SaysPart H.may (hub_in self.old) (probes (after (R.links_of (reader_in self.old)) it (known_in self.old)).0) (hub_in self.new)) }
        ensures reader { reader_in self.new ≡ reader_in self.old }
        ensures spent { is_spent self.new ≡ is_spent self.old }
        ensures faults { H.faults (hub_in self.new) ≡ H.faults (hub_in self.old) }
    {
        let given = self.known.take(self.alloc, &self.reader, it)?;
        say_all(&mut self.hub, self.known.probing.said.as_slice())?;
        Ok(given)
    }

    // The next turn: what is to be told before anything else happens, or else what happens at the hub.
    fn next_turn(&mut self) -> Result<Turn, NoMemory>
        ensures does { IfOk result (λ turn. Does H.may R.links_of self.old (turned turn) self.new) }
        ensures lost { OnErr result (IsAsked H.may R.links_of self.old (hub_in self.new)) }
        ensures along { GoesAlong H.may self.old self.new }
        ensures spent { is_spent self.new ≡ is_spent self.old }

        ensures failed { result ≡ Ok Turn.Failed → Rose (H.faults (hub_in self.old)) (H.faults (hub_in self.new)) }
        ensures no_fault { result ≢ Ok Turn.Failed → H.faults (hub_in self.new) ≡ H.faults (hub_in self.old) }
        ensures faults { H.faults (hub_in self.old) ≤ H.faults (hub_in self.new) }
    {
        self.known.take_in(self.alloc)?;
        if let Some(it) = self.known.next_told(self.alloc)? {
            return Ok(Turn::Happened(it));
        }
        match self.hub.turn() {
            Turn::Happened(it) => Ok(Turn::Happened(self.pass_on(it)?)),
            Turn::Done => Ok(Turn::Done),
            Turn::Failed => Ok(Turn::Failed),
            Turn::Memory => Err(AllocError),
        }
    }
}

impl<H: Hub, R: ReadsLinks> Hub for ProbeHub<H, R> {
    ghost use Rattle.probe_hub.specs.ProbeHub.{hub_in, ProbeStep};

    ghost may = { ProbeStep H.may R.links_of };

    ghost is_open = { λ it conn. H.is_open (hub_in it) conn };

    ghost faults = { λ it. H.faults (hub_in it) };

    /// `Done` and `Failed` exactly where the hub's turn in this call answers so.
    fn turn(&mut self) -> Turn {
        if self.spent {
            return Turn::Memory;
        }
        match self.next_turn() {
            Ok(turn) => turn,
            Err(_) => {
                self.spent = true;
                Turn::Memory
            }
        }
    }

    fn say(&mut self, conn: u32, piece: &[u8]) -> Said {
        if self.spent {
            return Said::Memory;
        }
        match self.hub.say(conn, piece) {
            Said::Memory => {
                self.spent = true;
                Said::Memory
            }
            answer => {
                self.known.note(conn, piece);
                answer
            }
        }
    }

    fn close(&mut self, conn: u32) {
        self.hub.close(conn);
        self.known.end(conn);
    }
}
