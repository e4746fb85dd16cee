ghost use Rattle.std.specs.Prelude.{◌≡◌, ℕ};
ghost use Rattle.conf_types.specs.Count.{counted};

/// A count of units of work, kept in 64 bits: it stays at its greatest value.
pub trait Tally {
    /// The count.
    ghost count: { Self → ℕ };

    /// Counts one unit more.
    fn tick(&mut self)
        ensures { count self.new ≡ counted (count self.old) };
}
