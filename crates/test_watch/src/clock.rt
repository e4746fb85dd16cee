ghost use Rattle.std.specs.Prelude.{ℕ, false};

use fg_outside::{Happening, Hub, Said, Turn};

/// A hub with no connection that shows these moments in turn, and then ends or fails.
#[derive(Drop)]
pub struct Clock {
    moments: &'static [u64],
    fails: bool,
    faults: u64,
}

impl Clock {
    pub fn new(moments: &'static [u64], fails: bool) -> Clock {
        Clock {
            moments,
            fails,
            faults: 0,
        }
    }
}

impl Hub for Clock {
    ghost may = { λ _ _ _. Unit {0} };

    ghost is_open = { λ _ _. false };

    ghost faults = { λ clock. clock.faults };

    fn turn(&mut self) -> Turn {
        match self.moments {
            [moment, rest @ ..] => {
                let moment = *moment;
                self.moments = rest;
                Turn::Happened(Happening::Moment(moment))
            }
            [] if self.fails => {
                self.faults = self.faults.saturating_add(1);
                Turn::Failed
            }
            [] => Turn::Done,
        }
    }

    fn say(&mut self, _conn: u32, _piece: &[u8]) -> Said {
        Said::Gone
    }

    fn close(&mut self, _conn: u32) {}
}
