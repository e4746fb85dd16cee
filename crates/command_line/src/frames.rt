ghost use Rattle.std.specs.Prelude.{◌≡◌, IfOk};
ghost use Rattle.command_line.specs.Frames.{typed, frame_of};

use hex::FromHexError;
use net_base::{Bytes, NoMemory};
use pkt_view::view;
use std::alloc::{AllocError, Global};

// Two digits for each byte of the longest tagged frame.
const MOST_DIGITS: usize = 3_044;

/// The bytes, where their EtherType is there.
fn typed(bytes: Bytes) -> Option<Bytes>
    ensures { result ≡ typed bytes }
{
    if view(bytes.as_slice()).is_some() {
        Some(bytes)
    } else {
        None
    }
}

/// The frame that a text spells in hexadecimal digits of either case, an even number of them and 3,044 at most;
/// `None` where it spells none, or none whose EtherType is there.
pub(crate) fn frame_of(alloc: Global, text: &str) -> Result<Option<Bytes>, NoMemory>
    ensures { IfOk result (λ frame. frame ≡ frame_of text.now) }
{
    if text.len() > MOST_DIGITS {
        return Ok(None);
    }
    match hex::decode(alloc, text) {
        Ok(bytes) => Ok(typed(Bytes::from(bytes))),
        Err(FromHexError::OutOfMemory) => Err(AllocError),
        Err(_) => Ok(None),
    }
}
