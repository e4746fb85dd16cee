ghost use Rattle.std.specs.Prelude.{◌≡◌, IfOk};
ghost use Rattle.hub_drive.specs.Machine.{Runs, printed};

use ctl_life::Sayings;
use fg_outside::Happening;
use net_base::{Bytes, NoMemory};
use std::alloc::Global;

/// What a turn comes to.
#[derive(Debug, Drop)]
pub struct Taken {
    /// In milliseconds.
    pub moment: u64,
    /// What is said, in order.
    pub sayings: Sayings,
    /// What is printed; nothing where the machine doesn't print.
    pub prints: Bytes,
}

/// What is run on the turns of a hub.
pub trait Machine {
    /// What a machine stands for, and how that takes in what happens.
    ghost runs: { Runs Self };

    /// Takes in what happens, and gives what is said and printed of it. After `NoMemory` nothing is said of the
    /// machine.
    fn turn(&mut self, alloc: Global, what: &Happening) -> Result<Taken, NoMemory>
        ensures stands { IfOk result (λ _. (w : runs.State) → runs.stands self.old w → runs.stands self.new (runs.works.turn what.now w)) }
        ensures moment { IfOk result (λ taken. (w : runs.State) → runs.stands self.old w → taken.moment ≡ runs.works.moment (runs.works.turn what.now w)) }
        ensures says { IfOk result (λ taken. (w : runs.State) → runs.stands self.old w → taken.sayings ≡ runs.works.says (runs.works.turn what.now w)) }
        ensures prints { IfOk result (λ taken. (w : runs.State) → runs.stands self.old w → taken.prints ≡ printed runs.works (runs.works.turn what.now w)) };
}
