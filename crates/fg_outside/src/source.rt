ghost use Rattle.std.specs.Prelude.{◌≡◌, ℕ, ◌<◌, ◌≤◌, List, length, take, Option, IfOk, OnOk, OnErr};
ghost use Rattle.fg_outside.specs.Counts.{Rose};
ghost use Rattle.fg_outside.specs.Left.{prepended, IsAtEnd};

use crate::fault::Failed;

/// A place that gives bytes, in order, up to an end.
pub trait Source {
    /// All bytes that it has left, where it tells them.
    ghost left: { Self → Option (List ℕ) };

    /// How often a call failed.
    ghost faults: { Self → ℕ };

    /// What a call may make of it: the source before the call, and behind it. A source that tells
    /// nothing more allows every step.
    ghost may: { Self → Self → Type 0 };

    /// Takes the next bytes to the front of `buf`, and says how many: 0 of a buffer that isn't empty
    /// only at the end. After `Failed` nothing was taken.
    fn read(&mut self, buf: &mut [u8]) -> Result<usize, Failed>
        ensures within { IfOk result (λ n. n ≤ length buf.old) }
        ensures took { IfOk result (λ n. left self.old ≡ prepended (take n buf.new) (left self.new)) }
        ensures end { 0 < length buf.old → IfOk result (λ n. n ≡ 0 → IsAtEnd (left self.old)) }
        ensures kept { OnErr result (left self.new ≡ left self.old) }
        ensures failed { OnErr result (Rose (faults self.old) (faults self.new)) }
        ensures no_fault { OnOk result (faults self.new ≡ faults self.old) }
        ensures faults { faults self.old ≤ faults self.new }
        ensures step { may self.old self.new };
}
