ghost use Rattle.std.specs.Prelude.{◌≡◌, IfOk};
ghost use Rattle.of_match.specs.Same.{field_same};

use net_base::{Field, Items, NoMemory, TryCopy};
use std::alloc::Global;

/// The port that a packet came in by, as one to send to (OpenFlow 1.3, 7.2.1).
pub const IN_PORT: u32 = 0xffff_fff8;

/// The controller, as a port to send to.
pub const CONTROLLER: u32 = 0xffff_fffd;

/// What a switch does to a packet (OpenFlow 1.3, 7.2.5).
#[derive(Clone, Copy, Debug)]
pub enum Action {
    /// Sends the packet as it then is; `max_len` bytes of it where the port is the controller.
    Output { port: u32, max_len: u16 },
    /// Adds an outermost tag of this EtherType.
    PushVlan(u16),
    /// Takes the outermost tag off.
    PopVlan,
    /// Lowers the TTL or hop limit by one.
    DecTtl,
    /// Sets a header field to the value of this one.
    Set(Field),
}

/// Equal exactly where they are one action.
impl PartialEq for Action {
    ghost use Rattle.of_match.specs.Same.{action_same, action_partial_equivalence};

    ghost eq = { action_same };

    ghost laws = { action_partial_equivalence };

    fn eq(&self, other: &Action) -> bool {
        match (self, other) {
            (
                Action::Output { port, max_len },
                Action::Output {
                    port: to,
                    max_len: most,
                },
            ) => port == to && max_len == most,
            (Action::PushVlan(eth_type), Action::PushVlan(other)) => eth_type == other,
            (Action::PopVlan, Action::PopVlan) => true,
            (Action::DecTtl, Action::DecTtl) => true,
            (Action::Set(field), Action::Set(other)) => is_same_field(field, other),
            _ => false,
        }
    }
}

impl Eq for Action {
    ghost use Rattle.of_match.specs.Same.{action_equivalence};

    ghost laws = { action_equivalence };
}

fn is_same_field(field: &Field, other: &Field) -> bool
    ensures { result ≡ field_same field.now other.now }
{
    field.id.number() == other.id.number() && field.value == other.value && field.mask == other.mask
}

/// Actions, in the order in which they are done.
pub type Actions = Items<Action>;

impl TryCopy for Action {
    fn copy(&self, _alloc: Global) -> Result<Action, NoMemory> {
        Ok(*self)
    }
}

/// What a flow entry does with the packets that it takes (OpenFlow 1.3, 7.2.4).
#[derive(Debug, Drop)]
pub enum Instr {
    /// Goes on to a table of a higher number.
    Goto(u8),
    /// Does these actions at once.
    Apply(Actions),
}

/// Equal exactly where they are one instruction.
impl PartialEq for Instr {
    ghost use Rattle.of_match.specs.Same.{instr_same, instr_partial_equivalence};

    ghost eq = { instr_same };

    ghost laws = { instr_partial_equivalence };

    fn eq(&self, other: &Instr) -> bool {
        match (self, other) {
            (Instr::Goto(table), Instr::Goto(other)) => table == other,
            (Instr::Apply(actions), Instr::Apply(others)) => actions == others,
            _ => false,
        }
    }
}

impl Eq for Instr {
    ghost use Rattle.of_match.specs.Same.{instr_equivalence};

    ghost laws = { instr_equivalence };
}

/// The instructions of an entry.
pub type Instrs = Items<Instr>;

impl TryCopy for Instr {
    fn copy(&self, alloc: Global) -> Result<Instr, NoMemory> {
        match self {
            Instr::Goto(table) => Ok(Instr::Goto(*table)),
            Instr::Apply(actions) => Ok(Instr::Apply(actions.copy(alloc)?)),
        }
    }
}
