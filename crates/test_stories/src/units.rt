use conf_types::Tally;

/// Units of work that nobody counts.
#[derive(Drop)]
pub struct Uncounted;

impl Tally for Uncounted {
    ghost count = { λ u. 18446744073709551615 };

    fn tick(&mut self) {}
}
