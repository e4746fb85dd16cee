ghost use Rattle.std.specs.Prelude.{◌≡◌, ◌≤◌, ◌<◌, ◌^◌, length, IfOk};
ghost use Rattle.of13_codec.specs.Decoding.{short, at_least, exactly};

use of_wire::{PartCause, PartFault};

/// The fault of a body that ends too early. Bodies begin at byte 8 of their frame.
pub fn short(body: &[u8]) -> PartFault
    requires { length body.now < 2 ^ 16 }
    ensures { result ≡ short body.now }
{
    PartFault {
        at: 8 + body.len() as u32,
        cause: PartCause::Short,
    }
}

/// Wants a body of at least so many bytes.
#[tactic(auto, unfolding(crate::specs::Decoding::at_least))]
pub fn at_least(size: usize, body: &[u8]) -> Result<usize, PartFault>
    requires { length body.now < 2 ^ 16 }
    ensures exact { result ≡ at_least size body.now }
    ensures there { IfOk result (λ n. size ≤ length body.now) }
{
    if body.len() < size {
        return Err(short(body));
    }
    Ok(size)
}

/// Wants a body of exactly so many bytes.
#[tactic(auto, unfolding(crate::specs::Decoding::exactly))]
pub fn exactly(size: usize, body: &[u8]) -> Result<usize, PartFault>
    requires { length body.now < 2 ^ 16 }
    ensures exact { result ≡ exactly size body.now }
    ensures there { IfOk result (λ n. length body.now ≡ size) }
{
    if body.len() < size {
        return Err(short(body));
    }
    if size < body.len() {
        return Err(PartFault {
            at: 8 + size as u32,
            cause: PartCause::BadLength,
        });
    }
    Ok(size)
}
