ghost use Rattle.std.specs.Prelude.{false};
ghost use Rattle.fg_outside.specs.NoHub.{IsIdle};

use crate::hub::{Hub, Said, Turn};

/// A hub with no connection, at which nothing happens.
#[derive(Clone, Copy, Debug, PartialEq, Eq)]
pub struct NoHub;

impl Hub for NoHub {
    ghost may = { λ _ step _. IsIdle step };

    ghost is_open = { λ _ _. false };

    ghost faults = { λ _. 0 };

    fn turn(&mut self) -> Turn {
        Turn::Done
    }

    fn say(&mut self, _conn: u32, _piece: &[u8]) -> Said {
        Said::Gone
    }

    fn close(&mut self, _conn: u32) {}
}
