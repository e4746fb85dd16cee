use conf_types::Tally;

/// A count of units.
#[derive(Drop)]
pub struct Ticks {
    pub count: u64,
}

impl Tally for Ticks {
    ghost count = { λ ticks. ticks.count };

    fn tick(&mut self) {
        self.count = self.count.saturating_add(1);
    }
}

/// None yet.
pub fn none() -> Ticks {
    Ticks { count: 0 }
}
