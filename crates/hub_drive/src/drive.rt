ghost use Rattle.std.specs.Prelude.{◌≡◌, ◌≢◌, ◌≤◌, ◌⊎◌, IfOk};
ghost use Rattle.fg_outside.specs.Counts.{Rose};
ghost use Rattle.hub_drive.specs.Driven.{Drives, Goes, drove_by};

use crate::laws::a_happening_is_of_bytes;
use crate::machine::Machine;
use crate::sayings::Outlet;
use crate::turn::{Stopped, take_turn};
use fg_outside::{Hub, Sink, Turn};
use net_base::NoMemory;
use std::alloc::Global;

/// How driving ended.
#[derive(Clone, Copy, Debug, PartialEq, Eq)]
pub enum Drove {
    /// Nothing more happens at the hub.
    Done,
    /// The hub failed.
    HubFault,
    /// As many turns were taken as there may be.
    Spent,
    /// A write failed.
    WriteFault,
    /// Memory ran out.
    Memory,
}

impl Stopped {
    fn drove(self) -> Drove
        ensures { result ≡ drove_by self }
    {
        match self {
            Stopped::WriteFault => Drove::WriteFault,
            Stopped::Memory => Drove::Memory,
        }
    }
}

/// Runs a machine, if there was memory for it, on the turns of a hub, `most` of them at most. Of each turn the hub is
/// told what is said, and what goes to standard output and the lines are written, before the next one is taken.
pub fn drive<M: Machine + Drop, H: Hub, O: Sink, E: Sink>(
    alloc: Global,
    machine: Result<M, NoMemory>,
    hub: &mut H,
    outlet: Outlet,
    most: u64,
    out: &mut O,
    err: &mut E,
) -> Drove
    // What happened is a story: all of it is answered whole where nothing failed, and a front of that answer is
    // given where a write failed or memory ran out. All that came in it on connections is bytes.
    ensures drove { (w : M.runs.State) → IfOk machine (λ made. M.runs.stands made w) → Drives M.runs.works H.may outlet most w hub.old hub.new
        (O.wrote out.old) (O.wrote out.new) (E.wrote err.old) (E.wrote err.new) result }

    // Whatever the machine is, the hub went along its calls.
    ensures goes { Goes H.may hub.old hub.new }

    ensures hub_fault { result ≡ Drove.HubFault → Rose (H.faults hub.old) (H.faults hub.new) }
    ensures no_hub_fault { result ≢ Drove.HubFault → H.faults hub.new ≡ H.faults hub.old }
    ensures write_fault { result ≡ Drove.WriteFault → Rose (O.faults out.old) (O.faults out.new) ⊎ Rose (E.faults err.old) (E.faults err.new) }
    ensures no_write_fault { result ≢ Drove.WriteFault → (O.faults out.new ≡ O.faults out.old) × (E.faults err.new ≡ E.faults err.old) }
    ensures hub_faults { H.faults hub.old ≤ H.faults hub.new }
    ensures out_faults { O.faults out.old ≤ O.faults out.new }
    ensures err_faults { E.faults err.old ≤ E.faults err.new }
{
    let Ok(mut machine) = machine else {
        return Drove::Memory;
    };
    for _ in 0..most {
        match hub.turn() {
            Turn::Happened(what) => {
                a_happening_is_of_bytes(&what);
                if let Err(stopped) = take_turn(alloc, &mut machine, &what, outlet, hub, out, err) {
                    return stopped.drove();
                }
            }
            Turn::Done => return Drove::Done,
            Turn::Failed => return Drove::HubFault,
            Turn::Memory => return Drove::Memory,
        }
    }
    Drove::Spent
}
