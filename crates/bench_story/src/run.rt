//! A controller to which the story happens.

ghost use Rattle.std.specs.Prelude.{◌≡◌, Some, length, IfOk, OnOk};
ghost use Rattle.ctl_world.specs.World.{World};
ghost use Rattle.bench_story.specs.Story.{Course, Knows, StandsFor, after, begun, comes, opened, says, shows, takes};

use crate::counted::{Counts, put_replies};
use crate::setup::make_configuration;
use crate::switch::{make_features, make_hello, make_packet_in, make_port_reply};
use conf_types::Tally;
use ctl_core::Controller;
use fg_outside::Happening;
use net_base::{Bytes, NoMemory};
use std::alloc::Global;
use std::mem;

/// The number of the switch's connection.
const CONN: u32 = 1;

/// A controller to which the story happens.
#[derive(Drop)]
pub struct Run {
    controller: Controller,
    /// The replies to barriers that the switch has not sent yet.
    owed: Bytes,
    counts: Counts,
}

fn known_hosts(controller: &Controller) -> Result<usize, NoMemory>
    ensures { IfOk result (λ hosts. (w : World) → controller.now ≡ Some w → hosts ≡ length w.hosts.hosts) }
{
    let dps = controller.running()?;
    let ups = controller.ups()?;
    Ok(controller.now(&dps, &ups).hosts.len())
}

impl Run {
    fn take<T: Tally>(
        &mut self,
        alloc: Global,
        what: &Happening,
        units: &mut T,
    ) -> Result<(), NoMemory>
        ensures { (c : Course) → Knows self.old c → OnOk result (StandsFor self.new (takes what.now self.old.owed c)) }
    {
        let sayings = self.controller.turn(what, units)?;
        self.counts.add(sayings.as_slice())?;
        put_replies(alloc, &mut self.owed, sayings.as_slice())
    }

    /// The switch says this, behind what it owes.
    fn hear<T: Tally>(
        &mut self,
        alloc: Global,
        message: &[u8],
        units: &mut T,
    ) -> Result<(), NoMemory>
        ensures { (c : Course) → StandsFor self.old c → OnOk result (StandsFor self.new (says message.now c)) }
    {
        let mut piece = mem::replace(&mut self.owed, Bytes::new(alloc));
        piece.append(message)?;
        self.take(alloc, &Happening::Heard { conn: CONN, piece }, units)
    }

    /// The clock shows this moment, in milliseconds.
    fn show<T: Tally>(&mut self, alloc: Global, moment: u64, units: &mut T) -> Result<(), NoMemory>
        ensures { (c : Course) → StandsFor self.old c → OnOk result (StandsFor self.new (shows moment c)) }
    {
        self.take(alloc, &Happening::Moment(moment), units)
    }

    /// A controller to which nothing happened yet.
    fn new(alloc: Global) -> Result<Run, NoMemory>
        ensures { IfOk result (λ run. StandsFor run begun) }
    {
        let conf = make_configuration(alloc)?;
        let controller = Controller::new(alloc, conf)?;
        Ok(Run {
            controller,
            owed: Bytes::new(alloc),
            counts: Counts::none(),
        })
    }

    /// The switch says this message, behind what it owes.
    fn say<T: Tally>(
        &mut self,
        alloc: Global,
        message: Bytes,
        units: &mut T,
    ) -> Result<(), NoMemory>
        ensures { (c : Course) → StandsFor self.old c → OnOk result (StandsFor self.new (says message c)) }
    {
        self.hear(alloc, message.as_slice(), units)
    }

    /// The switch opens its connection and is set up.
    fn set_up<T: Tally>(&mut self, alloc: Global, units: &mut T) -> Result<(), NoMemory>
        ensures { StandsFor self.old begun → OnOk result (StandsFor self.new opened) }
    {
        self.take(alloc, &Happening::Opened(CONN), units)?;
        self.say(alloc, make_hello(alloc)?, units)?;
        self.say(alloc, make_features(alloc)?, units)?;
        self.say(alloc, make_port_reply(alloc)?, units)?;
        self.hear(alloc, &[], units)?;
        self.hear(alloc, &[], units)
    }

    /// A controller to which the switch has opened its connection: its ports are told, and the replies to the barriers
    /// of the wipe and of the opening batch came.
    pub fn open<T: Tally>(alloc: Global, units: &mut T) -> Result<Run, NoMemory>
        ensures { IfOk result (λ run. StandsFor run opened) }
    {
        let mut run = Run::new(alloc)?;
        run.set_up(alloc, units)?;
        Ok(run)
    }

    fn bring_host<T: Tally>(
        &mut self,
        alloc: Global,
        host: u32,
        units: &mut T,
    ) -> Result<(), NoMemory>
        ensures { (c : Course) → StandsFor self.old c → OnOk result (StandsFor self.new (comes host c)) }
    {
        self.show(alloc, 10 * u64::from(host), units)?;
        self.say(alloc, make_packet_in(alloc, host)?, units)?;
        self.hear(alloc, &[], units)
    }

    /// So many hosts come, of which none came before.
    pub fn bring_hosts<T: Tally>(
        &mut self,
        alloc: Global,
        hosts: u32,
        units: &mut T,
    ) -> Result<(), NoMemory>
        ensures { StandsFor self.old opened → OnOk result (StandsFor self.new (after hosts)) }
    {
        for host in 0..hosts {
            self.bring_host(alloc, host, units)?;
        }
        Ok(())
    }

    /// How many hosts the controller knows.
    pub fn known_hosts(&self) -> Result<usize, NoMemory>
        ensures { (c : Course) → StandsFor self.now c → IfOk result (λ hosts. hosts ≡ length c.known.hosts.hosts) }
    {
        known_hosts(&self.controller)
    }

    /// What was counted of all that the controller said.
    pub fn counts(&self) -> Counts
        ensures { result ≡ self.now.counts }
    {
        self.counts
    }
}
