use conf_types::Tally;

/// Units of work, counted up to the greatest number.
#[derive(Drop)]
pub struct Units(u64);

impl Tally for Units {
    ghost count = { λ units. units.0 };

    fn tick(&mut self) {
        self.0 = self.0.saturating_add(1);
    }
}

impl Units {
    /// None yet.
    pub fn new() -> Units {
        Units(0)
    }
}
