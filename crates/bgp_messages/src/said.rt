ghost use Rattle.std.specs.Prelude.{◌≡◌, ◌+◌, ◌++◌, ◌^◌, ◌<◌, length, take, OnOk, OnErr, IfOk};
ghost use Rattle.bgp_messages.specs.Said.{framed, open_bytes, kind_said, body_said, written};

use crate::fault::Fault;
use crate::kind::Kind;
use crate::message::Open;
use crate::number::{put_u16, put_u32};
use net_base::{Bytes, NoMemory};
use std::alloc::Global;

/// A message that is said.
#[derive(Clone, Copy, Debug, PartialEq, Eq)]
pub enum Said {
    /// An OPEN without parameters.
    Open(Open),
    KeepAlive,
    /// A NOTIFICATION without data.
    Notification(Fault),
}

impl Said {
    /// The type of the message.
    pub fn kind(&self) -> Kind
        ensures { result ≡ kind_said self.now }
    {
        match self {
            Said::Open(_) => Kind::Open,
            Said::KeepAlive => Kind::KeepAlive,
            Said::Notification(_) => Kind::Notification,
        }
    }
}

fn put_open(opening: &Open, out: &mut Bytes) -> Result<(), NoMemory>
    ensures { OnOk result (out.new ≡ out.old ++ open_bytes opening.now) }
{
    out.push(4)?;
    put_u16(out, opening.sender_as)?;
    put_u16(out, opening.hold)?;
    put_u32(out, opening.id)?;
    out.push(0)
}

fn put_body(said: &Said, out: &mut Bytes) -> Result<(), NoMemory>
    ensures { OnOk result (out.new ≡ out.old ++ body_said said.now) }
{
    match said {
        Said::Open(opening) => put_open(opening, out),
        Said::KeepAlive => Ok(()),
        Said::Notification(fault) => {
            out.push(fault.code())?;
            out.push(fault.subcode())
        }
    }
}

/// What stands behind the header. It has few bytes.
fn body_of(alloc: Global, said: &Said) -> Result<Bytes, NoMemory>
    ensures body { IfOk result (λ body. body ≡ body_said said.now) }
    ensures few { IfOk result (λ body. length body < 2 ^ 8) }
{
    let mut body = Bytes::new(alloc);
    put_body(said, &mut body)?;
    Ok(body)
}

/// Adds a header, and a body behind it; after `NoMemory` a part of it may stand behind what was there.
fn put_framed(kind: Kind, body: &[u8], out: &mut Bytes) -> Result<(), NoMemory>
    requires { length body.now < 2 ^ 8 }
    ensures ok { OnOk result (out.new ≡ out.old ++ framed kind body.now) }
    ensures kept { OnErr result (take (length out.old) out.new ≡ out.old) }
{
    out.append(&[255; 16])?;
    put_u16(out, 19 + body.len() as u16)?;
    out.push(kind.number())?;
    out.append(body)
}

/// Adds a message to the end of `out`, in its one spelling. After `NoMemory` `out` is as it was.
pub fn put_said(alloc: Global, said: &Said, out: &mut Bytes) -> Result<(), NoMemory>
    ensures ok { OnOk result (out.new ≡ out.old ++ written said.now) }
    ensures err { OnErr result (out.new ≡ out.old) }
{
    let body = body_of(alloc, said)?;
    let start = out.len();
    if let Err(no_memory) = put_framed(said.kind(), body.as_slice(), out) {
        out.truncate(start);
        return Err(no_memory);
    }
    Ok(())
}
