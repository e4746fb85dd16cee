ghost use Rattle.std.specs.Prelude.{◌≡◌, ◌≢◌, ◌≤◌, ◌<◌, ◌+◌, ◌^◌, length, IfOk, IfErr, IfSome};
ghost use Rattle.of_wire.specs.Parts.{up_to_8};
ghost use Rattle.of_wire.specs.Answers.{Gives, fault_at};
ghost use Rattle.of_wire.specs.Reading.{past_end, padding_at, first_nonzero};

use crate::fault::{PartCause, PartFault, PartRefused};

/// A refusal at a place.
pub fn refused(at: u32, cause: PartCause) -> PartRefused
    ensures { result ≡ PartRefused.At (fault_at at cause) }
{
    PartRefused::At(PartFault { at, cause })
}

/// The fault of a part that runs past the end which a length sets: the length is wrong where that
/// end is inside the bytes, else the bytes are short.
#[tactic(auto, unfolding(crate::specs::Reading::past_end))]
pub fn past_end(len: usize, there: usize, wrong: PartFault, short: PartFault) -> PartFault
    ensures { result ≡ past_end len there wrong short }
{
    if there < len { short } else { wrong }
}

/// A length up to a multiple of 8, with the padding that follows it (OpenFlow 1.3, 7.2).
pub fn up_to_8(len: usize) -> usize
    requires { len < 2 ^ 32 }
    ensures { result ≡ up_to_8 len }
{
    len + (8 - len % 8) % 8
}

fn first_nonzero(bytes: &[u8]) -> Option<usize>
    ensures value { result ≡ first_nonzero bytes.now }
    ensures within { IfSome result (λ i. i < length bytes.now) }
{
    bytes.iter().position(|b| *b != 0)
}

/// Padding from one place to another has to be zero, as far as it is there, and has to be there.
#[tactic(auto, unfolding(crate::specs::Reading::padding_at))]
pub fn take_padding(
    past: PartFault,
    at: u32,
    from: usize,
    to: usize,
    bytes: &[u8],
) -> Result<usize, PartRefused>
    requires order { from ≤ to }
    requires small { at + length bytes.now < 2 ^ 32 }
    ensures exact { Gives (λ n. n) result (padding_at past at from to bytes.now) }
    ensures taken { IfOk result (λ n. (n ≡ to) × (n ≤ length bytes.now)) }
    ensures sure { IfErr result (λ e. e ≢ PartRefused.Memory) }
{
    let start = from.min(bytes.len());
    let end = to.min(bytes.len());
    if let Some(i) = first_nonzero(&bytes[start..end]) {
        return Err(refused(at + (from + i) as u32, PartCause::BadPad));
    }
    if bytes.len() < to {
        return Err(PartRefused::At(past));
    }
    Ok(to)
}
