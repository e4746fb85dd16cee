ghost use Rattle.std.specs.Prelude.{◌≡◌, ◌≤◌, ◌<◌, None, length, take, IfOk, OnOk, OnErr};
ghost use Rattle.std.specs.Io.KnownBytes.{Appends};
ghost use Rattle.fg_outside.specs.Counts.{Rose};
ghost use Rattle.real_outside.specs.Opened.{writer_of};

use fg_outside::{Failed, Sink};
use std::io::Write;

/// A real stream as a sink. It tells nothing of what it holds, and counts its faults.
#[derive(Drop)]
pub struct Stream<W> {
    writer: W,
    faults: u64,
}

impl<W: Write> Stream<W> {
    /// No write has failed yet.
    pub fn new(writer: W) -> Stream<W>
        ensures writer { writer_of result ≡ writer }
        ensures faults { ⟦<Stream<W> as Sink>⟧.faults result ≡ 0 }
    {
        Stream { writer, faults: 0 }
    }
}

impl<W: Write> Sink for Stream<W> {
    ghost wrote = { λ _. None };

    ghost faults = { λ s. s.faults };

    /// Hands the piece to the writer once, and says how many bytes that took from its front.
    fn write(&mut self, piece: &[u8]) -> Result<usize, Failed>
        ensures some { 0 < length piece.now → IfOk result (λ n. 0 < n) }
        ensures within { IfOk result (λ n. n ≤ length piece.now) }
        ensures failed { OnErr result (Rose self.old.faults self.new.faults) }
        ensures no_fault { OnOk result (self.new.faults ≡ self.old.faults) }
        ensures faults { self.old.faults ≤ self.new.faults }

        ensures handed { IfOk result (λ n. Appends (W.contents (writer_of self.old)) (W.contents (writer_of self.new)) (take n piece.now)) }
    {
        match self.writer.write(piece) {
            Ok(n) if 0 < n || piece.is_empty() => Ok(n),
            _ => {
                self.faults = self.faults.saturating_add(1);
                Err(Failed)
            }
        }
    }
}
