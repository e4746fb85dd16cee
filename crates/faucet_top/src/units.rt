ghost use Rattle.std.specs.Prelude.{◌≡◌};

use conf_types::Tally;

/// Units of work, counted up to the greatest number.
#[derive(Drop)]
pub struct Units {
    count: u64,
}

impl Tally for Units {
    ghost count = { λ units. units.count };

    fn tick(&mut self) {
        self.count = self.count.saturating_add(1);
    }
}

impl Units {
    /// None yet.
    pub fn new() -> Units
        ensures { ⟦<Units as Tally>⟧.count result ≡ 0 }
    {
        Units { count: 0 }
    }

    /// How many there were.
    pub fn count(&self) -> u64
        ensures { result ≡ ⟦<Units as Tally>⟧.count self.now }
    {
        self.count
    }
}
