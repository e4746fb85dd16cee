ghost use Rattle.std.specs.Prelude.{◌≡◌, ◌≤◌, ◌⊎◌, OnOk, OnErr, IsErrOf};
ghost use Rattle.std.specs.List.{flat_map};
ghost use Rattle.fg_outside.specs.Counts.{Rose};
ghost use Rattle.hub_drive.specs.Driving.{deeds_by, sayings_of};
ghost use Rattle.hub_drive.specs.Driven.{Goes, Tells, TellsPart, HasNoRoom, Answers, AnswersPart};

use crate::machine::{Machine, Taken};
use crate::sayings::{Outlet, make_lines, make_out};
use ctl_life::Saying;
use fg_outside::{Failed, Happening, Hub, Said, Sink, write_all};
use net_base::NoMemory;
use std::alloc::{AllocError, Global};

/// Why driving stops inside a turn.
#[derive(Clone, Copy, Debug, PartialEq, Eq)]
pub enum Stopped {
    /// A write failed.
    WriteFault,
    /// Memory ran out.
    Memory,
}

impl From<Failed> for Stopped {
    ghost use Rattle.hub_drive.specs.declared.turn.Stopped.TheVariants.{WriteFault};

    ghost from_gives = { λ _ stopped. stopped ≡ WriteFault };

    fn from(_: Failed) -> Stopped {
        Stopped::WriteFault
    }
}

impl From<NoMemory> for Stopped {
    ghost use Rattle.hub_drive.specs.declared.turn.Stopped.TheVariants.{Memory};

    ghost from_gives = { λ _ stopped. stopped ≡ Memory };

    fn from(_: NoMemory) -> Stopped {
        Stopped::Memory
    }
}

/// Says a message on a connection of the hub, where messages go there. A connection that is gone is
/// passed over: only a hub that has no memory for it ends this.
fn say_on<H: Hub>(hub: &mut H, outlet: Outlet, conn: u32, message: &[u8]) -> Result<(), NoMemory>
    ensures ok { OnOk result (Tells H.may hub.old (deeds_by outlet (Saying.Send conn message.now)) hub.new) }
    ensures err { OnErr result (TellsPart H.may hub.old (deeds_by outlet (Saying.Send conn message.now)) hub.new) }
    ensures memory { OnErr result (HasNoRoom H.may hub.old hub.new) }
    ensures faults { H.faults hub.new ≡ H.faults hub.old }
{
    match outlet {
        Outlet::Records => Ok(()),
        Outlet::Nowhere => Ok(()),
        Outlet::Hub => match hub.say(conn, message) {
            Said::Taken => Ok(()),
            Said::Gone => Ok(()),
            Said::Memory => Err(AllocError),
        },
    }
}

/// Tells the hub what a saying has for it.
fn tell_one<H: Hub>(hub: &mut H, outlet: Outlet, saying: &Saying) -> Result<(), NoMemory>
    ensures ok { OnOk result (Tells H.may hub.old (deeds_by outlet saying.now) hub.new) }
    ensures err { OnErr result (TellsPart H.may hub.old (deeds_by outlet saying.now) hub.new) }
    ensures memory { OnErr result (HasNoRoom H.may hub.old hub.new) }
    ensures faults { H.faults hub.new ≡ H.faults hub.old }
{
    match saying {
        Saying::Send { conn, bytes } => say_on(hub, outlet, *conn, bytes.as_slice())?,
        Saying::Close { conn, .. } => hub.close(*conn),
        Saying::Line(_) => {}
    }
    Ok(())
}

/// Tells the hub what is said, in order.
fn tell_hub<H: Hub>(hub: &mut H, outlet: Outlet, sayings: &[Saying]) -> Result<(), NoMemory>
    ensures ok { OnOk result (Tells H.may hub.old (flat_map (deeds_by outlet) sayings.now) hub.new) }
    ensures err { OnErr result (TellsPart H.may hub.old (flat_map (deeds_by outlet) sayings.now) hub.new) }
    ensures memory { OnErr result ((before : H) × HasNoRoom H.may before hub.new) }
    ensures faults { H.faults hub.new ≡ H.faults hub.old }
{
    for saying in sayings {
        tell_one(hub, outlet, saying)?;
    }
    Ok(())
}

/// Lets a machine take in what happened, and does what it says: the hub is told, what goes to standard output and
/// the lines are written.
pub fn take_turn<M: Machine, H: Hub, O: Sink, E: Sink>(
    alloc: Global,
    machine: &mut M,
    what: &Happening,
    outlet: Outlet,
    hub: &mut H,
    out: &mut O,
    err: &mut E,
) -> Result<(), Stopped>
    ensures known { (w : M.runs.State) → M.runs.stands machine.old w → OnOk result (M.runs.stands machine.new (M.runs.works.turn what.now w)) }
    ensures ok { (w : M.runs.State) → M.runs.stands machine.old w → OnOk result (Answers M.runs.works H.may outlet what.now w hub.old hub.new
        (O.wrote out.old) (O.wrote out.new) (E.wrote err.old) (E.wrote err.new)) }
    ensures part { (w : M.runs.State) → M.runs.stands machine.old w → OnErr result (AnswersPart M.runs.works H.may outlet what.now w hub.old hub.new
        (O.wrote out.old) (O.wrote out.new) (E.wrote err.old) (E.wrote err.new)) }
    ensures told { (w : M.runs.State) → M.runs.stands machine.old w → IsErrOf result Stopped.WriteFault
        → Tells H.may hub.old (flat_map (deeds_by outlet) (sayings_of M.runs.works what.now w)) hub.new }
    ensures goes { Goes H.may hub.old hub.new }

    ensures write_fault { IsErrOf result Stopped.WriteFault → Rose (O.faults out.old) (O.faults out.new) ⊎ Rose (E.faults err.old) (E.faults err.new) }
    ensures no_write_fault { (IsErrOf result Stopped.WriteFault → ⊥) → (O.faults out.new ≡ O.faults out.old) × (E.faults err.new ≡ E.faults err.old) }
    ensures hub_faults { H.faults hub.new ≡ H.faults hub.old }
    ensures out_faults { O.faults out.old ≤ O.faults out.new }
    ensures err_faults { E.faults err.old ≤ E.faults err.new }
{
    let Taken {
        moment,
        sayings,
        prints,
    } = machine.turn(alloc, what)?;
    let printed = make_out(alloc, outlet, moment, sayings.as_slice(), prints)?;
    let lines = make_lines(alloc, sayings.as_slice())?;
    tell_hub(hub, outlet, sayings.as_slice())?;
    write_all(out, printed.as_slice())?;
    write_all(err, lines.as_slice())?;
    Ok(())
}
