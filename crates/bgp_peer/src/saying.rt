ghost use Rattle.std.specs.Prelude.{◌≡◌, IfOk};
ghost use Rattle.bgp_peer.specs.Sayings.{sends, refusal, closing_for};

use bgp_messages::{Fault, Said, put_said};
use fg_outside::EndCause;
use net_base::{Bytes, Items, NoMemory};
use std::alloc::Global;

/// Why a connection was closed.
#[derive(Clone, Copy, Debug, PartialEq, Eq)]
pub enum BgpClosing {
    /// A NOTIFICATION with this error code and subcode was said.
    Sent { code: u8, sub: u8 },
    /// A NOTIFICATION with this error code and subcode was heard.
    Heard { code: u8, sub: u8 },
    /// More waited to be sent than a connection may keep.
    Overfull,
    /// Reading or writing failed.
    LinkFault,
    /// The other side ended it.
    End,
}

/// What is to be done on a connection.
#[derive(Debug, Drop)]
pub enum BgpSaying {
    /// One message is said.
    Send { conn: u32, bytes: Bytes },
    /// The connection is closed, or was closed by the other side.
    Close { conn: u32, cause: BgpClosing },
}

/// What a turn says, in its order.
pub type BgpSayings = Items<BgpSaying>;

/// A message on a connection.
pub(crate) fn send(alloc: Global, conn: u32, said: &Said) -> Result<BgpSaying, NoMemory>
    ensures { IfOk result (λ saying. saying ≡ sends conn said.now) }
{
    let mut bytes = Bytes::new(alloc);
    put_said(alloc, said, &mut bytes)?;
    Ok(BgpSaying::Send { conn, bytes })
}

/// Why a connection is closed whose NOTIFICATION says this.
pub(crate) fn refusal(fault: Fault) -> BgpClosing
    ensures { result ≡ refusal fault }
{
    BgpClosing::Sent {
        code: fault.code(),
        sub: fault.subcode(),
    }
}

/// Why a connection was closed that ended so.
pub(crate) fn closing_for(cause: EndCause) -> BgpClosing
    ensures { result ≡ closing_for cause }
{
    match cause {
        EndCause::End => BgpClosing::End,
        EndCause::LinkFault => BgpClosing::LinkFault,
        EndCause::Overfull => BgpClosing::Overfull,
    }
}
