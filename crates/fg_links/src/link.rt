ghost use Rattle.std.specs.Prelude.{◌≡◌, ◌≢◌, ℕ, ◌<◌, ◌≤◌, List, length, take, Option};
ghost use Rattle.fg_outside.specs.Counts.{Rose};
ghost use Rattle.fg_outside.specs.Left.{prepended, IsAtEnd};
ghost use Rattle.fg_outside.specs.Wrote.{appended};
ghost use Rattle.fg_links.specs.Moved.{IfTook, UnlessTook, IfGave, UnlessGave};

/// The answer to a read of a link.
#[derive(Clone, Copy, Debug, PartialEq, Eq)]
pub enum Took {
    /// So many bytes were taken to the front of the buffer.
    Some(usize),
    /// No byte has come yet.
    NotYet,
    /// The other side ended the link.
    End,
    /// The link failed.
    Failed,
}

/// The answer to a write on a link.
#[derive(Clone, Copy, Debug, PartialEq, Eq)]
pub enum Gave {
    /// So many bytes from the front of the piece were given.
    Some(usize),
    /// No byte can be given yet.
    NotYet,
    /// The link failed.
    Failed,
}

/// A way for bytes to and from a switch, at which no call waits.
pub trait Link {
    /// All bytes that it has left for reads, where it tells them.
    ghost left: { Self → Option (List ℕ) };

    /// All bytes that writes gave it, where it tells them.
    ghost wrote: { Self → Option (List ℕ) };

    /// How often a call failed.
    ghost faults: { Self → ℕ };

    /// How often a read answered `NotYet`.
    ghost unread: { Self → ℕ };

    /// How often a write answered `NotYet`.
    ghost unwritten: { Self → ℕ };

    /// Takes the next bytes to the front of `buf`: 1 or more where the buffer has room. `End` only
    /// where nothing is left. An answer other than `Some` takes nothing.
    fn read(&mut self, buf: &mut [u8]) -> Took
        ensures some { 0 < length buf.old → IfTook result (λ n. 0 < n) }
        ensures within { IfTook result (λ n. n ≤ length buf.old) }
        ensures took { IfTook result (λ n. left self.old ≡ prepended (take n buf.new) (left self.new)) }
        ensures kept { UnlessTook result (left self.new ≡ left self.old) }
        ensures end { result ≡ Took.End → IsAtEnd (left self.old) }
        ensures wrote { wrote self.new ≡ wrote self.old }

        ensures failed { result ≡ Took.Failed → Rose (faults self.old) (faults self.new) }
        ensures no_fault { result ≢ Took.Failed → faults self.new ≡ faults self.old }
        ensures faults { faults self.old ≤ faults self.new }
        ensures not_yet { result ≡ Took.NotYet → Rose (unread self.old) (unread self.new) }
        ensures no_wait { result ≢ Took.NotYet → unread self.new ≡ unread self.old }
        ensures unread { unread self.old ≤ unread self.new }
        ensures unwritten { unwritten self.new ≡ unwritten self.old };

    /// Gives bytes from the front of `piece`: 1 or more of a piece that isn't empty. An answer
    /// other than `Some` gives nothing.
    fn write(&mut self, piece: &[u8]) -> Gave
        ensures some { 0 < length piece.now → IfGave result (λ n. 0 < n) }
        ensures within { IfGave result (λ n. n ≤ length piece.now) }
        ensures gave { IfGave result (λ n. wrote self.new ≡ appended (wrote self.old) (take n piece.now)) }
        ensures kept { UnlessGave result (wrote self.new ≡ wrote self.old) }
        ensures left { left self.new ≡ left self.old }

        ensures failed { result ≡ Gave.Failed → Rose (faults self.old) (faults self.new) }
        ensures no_fault { result ≢ Gave.Failed → faults self.new ≡ faults self.old }
        ensures faults { faults self.old ≤ faults self.new }
        ensures not_yet { result ≡ Gave.NotYet → Rose (unwritten self.old) (unwritten self.new) }
        ensures no_wait { result ≢ Gave.NotYet → unwritten self.new ≡ unwritten self.old }
        ensures unwritten { unwritten self.old ≤ unwritten self.new }
        ensures unread { unread self.new ≡ unread self.old };
}
