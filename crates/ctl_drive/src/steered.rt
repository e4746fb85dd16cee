ghost use Rattle.std.specs.Prelude.{◌≡◌, IfOk};
ghost use Rattle.ctl_world.specs.World.{first};
ghost use Rattle.ctl_drive.specs.Controller.{StandsFor};

use conf_types::{Conf, Tally};
use ctl_core::Controller;
use fg_outside::Happening;
use hub_drive::{Machine, Taken};
use net_base::{Bytes, NoMemory};
use std::alloc::Global;

/// A controller as a hub drives it, with a count of its units of work.
#[derive(Drop)]
pub struct Steered<T> {
    core: Controller,
    units: T,
}

impl<T: Tally + Drop> Steered<T> {
    /// A controller to which nothing happened yet.
    pub fn new(alloc: Global, conf: Conf, units: T) -> Result<Steered<T>, NoMemory>
        ensures { IfOk result (λ made. StandsFor made (first conf)) }
    {
        let core = Controller::new(alloc, conf)?;
        Ok(Steered { core, units })
    }

    /// The controller, and its count.
    pub fn into_parts(self) -> (Controller, T)
        ensures { result ≡ (self.core, self.units) }
    {
        (self.core, self.units)
    }
}

impl<T: Tally> Machine for Steered<T> {
    ghost use Rattle.ctl_drive.specs.Controller.{controls};

    ghost runs = { controls };

    fn turn(&mut self, alloc: Global, what: &Happening) -> Result<Taken, NoMemory> {
        let sayings = self.core.turn(what, &mut self.units)?;
        let moment = self.core.moment();
        let prints = Bytes::new(alloc);
        Ok(Taken {
            moment,
            sayings,
            prints,
        })
    }
}
