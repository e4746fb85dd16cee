ghost use Rattle.std.specs.Prelude.{◌≡◌, ◌≢◌, ◌≤◌, ℕ, Bool, true, false};
ghost use Rattle.fg_outside.specs.Counts.{Rose};
ghost use Rattle.fg_outside.specs.HubStep.{HubStep, turned, said, closed};

use net_base::{Bytes, Items, NoMemory, TryCopy};
use std::alloc::Global;

/// Why a connection ended.
#[derive(Clone, Copy, Debug, PartialEq, Eq)]
pub enum EndCause {
    /// The other side ended it.
    End,
    /// Reading or writing failed.
    LinkFault,
    /// More waited to be sent than a connection may keep.
    Overfull,
}

/// What happens to a hub. Connections have numbers.
#[derive(Debug, Drop)]
pub enum Happening {
    /// A connection opened.
    Opened(u32),
    /// Bytes came on a connection.
    Heard { conn: u32, piece: Bytes },
    /// A connection ended.
    Closed { conn: u32, cause: EndCause },
    /// The clock shows this moment, in milliseconds.
    Moment(u64),
    /// A configuration came, to be loaded in place of the present one.
    Reload(Bytes),
}

/// A list of happenings.
pub type Happenings = Items<Happening>;

impl TryCopy for Happening {
    fn copy(&self, alloc: Global) -> Result<Happening, NoMemory> {
        Ok(match self {
            Happening::Opened(conn) => Happening::Opened(*conn),
            Happening::Heard { conn, piece } => Happening::Heard {
                conn: *conn,
                piece: piece.copy(alloc)?,
            },
            Happening::Closed { conn, cause } => Happening::Closed {
                conn: *conn,
                cause: *cause,
            },
            Happening::Moment(moment) => Happening::Moment(*moment),
            Happening::Reload(text) => Happening::Reload(text.copy(alloc)?),
        })
    }
}

/// The answer of a hub's turn.
#[derive(Debug, Drop)]
pub enum Turn {
    /// Something happened.
    Happened(Happening),
    /// Nothing more will happen.
    Done,
    /// The hub failed.
    Failed,
    /// Memory ran out. The hub is spent.
    Memory,
}

/// The answer to what was said on a connection.
#[derive(Clone, Copy, Debug, PartialEq, Eq)]
pub enum Said {
    /// The whole piece was taken.
    Taken,
    /// The connection isn't open.
    Gone,
    /// Memory ran out. The hub is spent.
    Memory,
}

/// The connections to switches, and all that happens around them, one turn at a time.
pub trait Hub {
    /// The steps that a hub may take: from its state before a call, by the call with its answer,
    /// to its state after. A hub that tells nothing allows every step.
    ghost may: { Self → HubStep → Self → Type 0 };

    /// Whether the connection with this number is open.
    ghost is_open: { Self → ℕ → Bool };

    /// How often a turn failed.
    ghost faults: { Self → ℕ };

    /// Waits for what happens next.
    fn turn(&mut self) -> Turn
        ensures step { may self.old (turned result) self.new }
        ensures failed { result ≡ Turn.Failed → Rose (faults self.old) (faults self.new) }
        ensures no_fault { result ≢ Turn.Failed → faults self.new ≡ faults self.old }
        ensures faults { faults self.old ≤ faults self.new };

    /// Sends a piece on a connection. Unless memory ran out, `Gone` exactly where the connection
    /// isn't open when the call ends.
    fn say(&mut self, conn: u32, piece: &[u8]) -> Said
        ensures step { may self.old (said conn piece.now result) self.new }
        ensures gone { result ≡ Said.Gone → is_open self.new conn ≡ false }
        ensures taken { result ≡ Said.Taken → is_open self.new conn ≡ true }
        ensures faults { faults self.new ≡ faults self.old };

    /// Closes a connection; nothing where it isn't open.
    fn close(&mut self, conn: u32)
        ensures step { may self.old (closed conn) self.new }
        ensures closed { is_open self.new conn ≡ false }
        ensures faults { faults self.new ≡ faults self.old };
}
