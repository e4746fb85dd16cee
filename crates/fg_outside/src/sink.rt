ghost use Rattle.std.specs.Prelude.{◌≡◌, ℕ, ◌<◌, ◌≤◌, List, length, take, Option, IfOk, OnOk, OnErr};
ghost use Rattle.fg_outside.specs.Counts.{Rose};
ghost use Rattle.fg_outside.specs.Wrote.{appended, AppendsFront};

use crate::fault::Failed;

/// A place that takes bytes, in order.
pub trait Sink {
    /// All bytes that it has taken, where it tells them.
    ghost wrote: { Self → Option (List ℕ) };

    /// How often a call failed.
    ghost faults: { Self → ℕ };

    /// Takes bytes from the front of `piece`, and says how many: 1 or more of a piece that isn't
    /// empty. A sink that would take none fails.
    fn write(&mut self, piece: &[u8]) -> Result<usize, Failed>
        ensures some { 0 < length piece.now → IfOk result (λ n. 0 < n) }
        ensures within { IfOk result (λ n. n ≤ length piece.now) }
        ensures took { IfOk result (λ n. wrote self.new ≡ appended (wrote self.old) (take n piece.now)) }
        ensures kept { OnErr result (wrote self.new ≡ wrote self.old) }
        ensures failed { OnErr result (Rose (faults self.old) (faults self.new)) }
        ensures no_fault { OnOk result (faults self.new ≡ faults self.old) }
        ensures faults { faults self.old ≤ faults self.new };
}

/// Writes the whole piece. After `Failed` the sink has taken a front of it.
pub fn write_all<S: Sink>(sink: &mut S, piece: &[u8]) -> Result<(), Failed>
    ensures ok { OnOk result (S.wrote sink.new ≡ appended (S.wrote sink.old) piece.now) }
    ensures err { OnErr result (AppendsFront (S.wrote sink.old) (S.wrote sink.new) piece.now) }
    ensures failed { OnErr result (Rose (S.faults sink.old) (S.faults sink.new)) }
    ensures no_fault { OnOk result (S.faults sink.new ≡ S.faults sink.old) }
    ensures faults { S.faults sink.old ≤ S.faults sink.new }
{
    let mut done = 0;
    while done < piece.len() {
        done += sink.write(&piece[done..])?;
    }
    Ok(())
}
