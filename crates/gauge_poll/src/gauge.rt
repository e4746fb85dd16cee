ghost use Rattle.std.specs.Prelude.{◌≡◌, map, IfOk, OnErr};
ghost use Rattle.ctl_life.specs.Sayings.{saying_of};
ghost use Rattle.gauge_poll.specs.Monitoring.{Monitor, begun, turn};
ghost use Rattle.gauge_poll.specs.StandsFor.{IsSpent, KeepsAll, StandsFor};

use crate::known::{Kept, Known};
use crate::newest::Newest;
use crate::parts::Parts;
use crate::turns::work_through;
use ctl_life::{Sayings, make_sayings};
use ctl_world::{Saids, World};
use fg_outside::Happening;
use gauge_conf::GaugeConf;
use net_base::{Names, NoMemory};
use std::alloc::{AllocError, Global};

/// What a turn gives: what is said on connections, and the lines and blocks of what switches told.
#[derive(Debug, Drop)]
pub struct GaugeTurn {
    pub sayings: Sayings,
    /// Lines, six columns each, and blocks in Prometheus' text format, with the ends of their lines.
    pub lines: Names,
}

/// A Gauge, which watches switches. Contracts see the monitors that it stands for, or that it is spent.
#[derive(Drop)]
pub struct Gauge {
    alloc: Global,
    kept: Kept,
    is_spent: bool,
}

impl Gauge {
    /// A Gauge to which nothing happened yet.
    pub fn new(alloc: Global, conf: GaugeConf) -> Result<Gauge, NoMemory>
        ensures { IfOk result (λ made. StandsFor made (begun conf)) }
    {
        let GaugeConf { watchers, conf } = conf;
        let world = World::new(alloc, conf)?;
        let newest = Newest::new(alloc);
        let parts = Parts::new(alloc);
        Ok(Gauge {
            alloc,
            kept: Kept {
                watchers,
                known: Known {
                    world,
                    newest,
                    parts,
                },
                lines: Names::new(alloc),
            },
            is_spent: false,
        })
    }

    /// Takes in what happens, and gives what is said of it, and the lines and blocks, each in order. After `NoMemory`
    /// the Gauge is spent, and answers so from then on.
    pub fn turn(&mut self, what: &Happening) -> Result<GaugeTurn, NoMemory>
        ensures known { IfOk result (λ _. (m : Monitor) → StandsFor self.old m → StandsFor self.new (turn what.now m)) }
        ensures says { IfOk result (λ given. (m : Monitor) → StandsFor self.old m → given.sayings ≡ map saying_of (turn what.now m).said.world.said) }
        ensures lines { IfOk result (λ given. (m : Monitor) → StandsFor self.old m → given.lines ≡ (turn what.now m).lines) }
        ensures spent { OnErr result (IsSpent self.new) }
        ensures stays_spent { IsSpent self.old → IsSpent self.new }
        ensures spent_says_nothing { IfOk result (λ _. IsSpent self.old → ⊥) }
    {
        if self.is_spent {
            return Err(AllocError);
        }
        self.is_spent = true;
        self.kept.known.world.said = Saids::new(self.alloc);
        self.kept.lines = Names::new(self.alloc);
        work_through(self.alloc, &mut self.kept, what)?;
        let sayings = make_sayings(self.alloc, self.kept.known.world.said.as_slice())?;
        let lines = std::mem::replace(&mut self.kept.lines, Names::new(self.alloc));
        self.is_spent = false;
        Ok(GaugeTurn { sayings, lines })
    }

    /// The last moment, in milliseconds: 0 at first.
    pub fn moment(&self) -> u64
        ensures { (m : Monitor) → StandsFor self.now m → result ≡ m.said.world.moment.0 }
    {
        self.kept.known.world.moment.0
    }
}
