ghost use Rattle.std.specs.Prelude.{◌≡◌, ◌≤◌, ◌++◌, OnOk, OnErr};
ghost use Rattle.std.specs.List.{flat_map};
ghost use Rattle.fg_outside.specs.Counts.{Rose};
ghost use Rattle.fg_outside.specs.Wrote.{appended, AppendsFront, line_of};

use crate::fault::Failed;
use crate::sink::{Sink, write_all};

fn write_pieces<S: Sink>(sink: &mut S, pieces: &[&str]) -> Result<(), Failed>
    ensures ok { OnOk result (S.wrote sink.new ≡ appended (S.wrote sink.old) (flat_map (λ piece. piece.now) pieces.now)) }
    ensures err { OnErr result (AppendsFront (S.wrote sink.old) (S.wrote sink.new) (flat_map (λ piece. piece.now) pieces.now)) }
    ensures failed { OnErr result (Rose (S.faults sink.old) (S.faults sink.new)) }
    ensures no_fault { OnOk result (S.faults sink.new ≡ S.faults sink.old) }
    ensures faults { S.faults sink.old ≤ S.faults sink.new }
{
    for piece in pieces {
        write_all(sink, piece.as_bytes())?;
    }
    Ok(())
}

/// Writes these texts one behind the other, and then a line feed. After `Failed` the sink has taken
/// a front of that.
#[tactic(auto, using(crate::proofs::SinkLemmas::writes))]
pub fn write_line<S: Sink>(sink: &mut S, pieces: &[&str]) -> Result<(), Failed>
    ensures ok { OnOk result (S.wrote sink.new ≡ appended (S.wrote sink.old) (line_of pieces.now)) }
    ensures err { OnErr result (AppendsFront (S.wrote sink.old) (S.wrote sink.new) (line_of pieces.now)) }
    ensures failed { OnErr result (Rose (S.faults sink.old) (S.faults sink.new)) }
    ensures no_fault { OnOk result (S.faults sink.new ≡ S.faults sink.old) }
    ensures faults { S.faults sink.old ≤ S.faults sink.new }
{
    write_pieces(sink, pieces)?;
    write_all(sink, b"\n")?;
    Ok(())
}
