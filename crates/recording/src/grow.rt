ghost use Rattle.std.specs.Prelude.{◌≡◌, ℕ, ◌+◌, ◌-◌, ◌<◌, ◌≤◌, List, ◌++◌, length, true, false, OnOk, IfOk, IsErrOf};
ghost use Rattle.fg_outside.specs.Counts.{Rose};
ghost use Rattle.fg_outside.specs.Left.{prepended, IsAtEnd};
ghost use Rattle.fg_outside.specs.Steps.{Went};

use fg_outside::{Failed, Source};
use net_base::{Bytes, NoMemory};

/// Why bytes weren't read.
#[derive(Clone, Copy, Debug, PartialEq, Eq)]
pub enum GrowRefused {
    /// A read failed. What was read before stands in the bytes.
    Failed,
    /// Memory ran out. The bytes that were read last are lost.
    Memory,
}

impl From<Failed> for GrowRefused {
    ghost use Rattle.recording.specs.declared.grow.GrowRefused.TheVariants.{Failed};

    ghost from_gives = { λ _ refused. refused ≡ Failed };

    fn from(_: Failed) -> GrowRefused {
        GrowRefused::Failed
    }
}

impl From<NoMemory> for GrowRefused {
    ghost use Rattle.recording.specs.declared.grow.GrowRefused.TheVariants.{Memory};

    ghost from_gives = { λ _ refused. refused ≡ Memory };

    fn from(_: NoMemory) -> GrowRefused {
        GrowRefused::Memory
    }
}

// How many bytes are read at once.
const PIECE_LEN: usize = 1024;

/// Reads bytes behind those that are there, until there are `most` or the source ends. After
/// `Failed` it can be called again, to go on.
#[tactic(auto, using(fg_outside::proofs::StepLemmas::calls))]
pub fn grow<S: Source>(source: &mut S, bytes: &mut Bytes, most: usize) -> Result<(), GrowRefused>
    requires { length bytes.old ≤ most }
    ensures took { (IsErrOf result GrowRefused.Memory → ⊥)
        → prepended bytes.old (S.left source.old) ≡ prepended bytes.new (S.left source.new) }
    ensures most { length bytes.new ≤ most }
    ensures end { OnOk result (length bytes.new < most → IsAtEnd (S.left source.new)) }
    ensures failed { IsErrOf result GrowRefused.Failed → Rose (S.faults source.old) (S.faults source.new) }
    ensures no_fault { (IsErrOf result GrowRefused.Failed → ⊥) → S.faults source.new ≡ S.faults source.old }
    ensures faults { S.faults source.old ≤ S.faults source.new }
    ensures step { Went S.may source.old source.new }
{
    while bytes.len() < most {
        if grow_once(source, bytes, most)? {
            return Ok(());
        }
    }
    Ok(())
}

// Reads one piece more, and says whether the source has ended.
#[tactic(auto, using(fg_outside::proofs::StepLemmas::calls))]
fn grow_once<S: Source>(source: &mut S, bytes: &mut Bytes, most: usize) -> Result<bool, GrowRefused>
    requires { length bytes.old < most }
    ensures took { (IsErrOf result GrowRefused.Memory → ⊥)
        → prepended bytes.old (S.left source.old) ≡ prepended bytes.new (S.left source.new) }
    ensures most { length bytes.new ≤ most }
    ensures more { IfOk result (λ ended. ended ≡ false → length bytes.old < length bytes.new) }
    ensures end { IfOk result (λ ended. ended ≡ true → IsAtEnd (S.left source.new)) }
    ensures failed { IsErrOf result GrowRefused.Failed → Rose (S.faults source.old) (S.faults source.new) }
    ensures no_fault { (IsErrOf result GrowRefused.Failed → ⊥) → S.faults source.new ≡ S.faults source.old }
    ensures faults { S.faults source.old ≤ S.faults source.new }
    ensures step { Went S.may source.old source.new }
{
    let room = PIECE_LEN.min(most - bytes.len());
    let mut buf = [0; PIECE_LEN];
    let piece = &mut buf[..room];
    match source.read(piece)? {
        0 => Ok(true),
        n => {
            bytes.append(&piece[..n])?;
            Ok(false)
        }
    }
}
