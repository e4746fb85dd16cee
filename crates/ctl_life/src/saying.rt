//! What is said, as it goes out.

ghost use Rattle.std.specs.Prelude.{◌≡◌, map, IfOk};
ghost use Rattle.ctl_life.specs.Sayings.{saying_of};

use ctl_world::Said;
use net_base::{Bytes, Items, NoMemory, Text, TryCopy};
use of13_codec::encode;
use std::alloc::Global;
use switch_session::Closing;

/// What is said in a turn.
#[derive(Debug, Drop)]
pub enum Saying {
    /// One message on a connection, as OpenFlow 1.3 spells it.
    Send { conn: u32, bytes: Bytes },
    /// It closes a connection.
    Close { conn: u32, cause: Closing },
    /// A line on standard error, without its end.
    Line(Text),
}

/// What is said in a turn, in order.
pub type Sayings = Items<Saying>;

fn make_saying(alloc: Global, said: &Said) -> Result<Saying, NoMemory>
    ensures { IfOk result (λ made. made ≡ saying_of said.now) }
{
    match said {
        Said::Message { conn, message, xid } => {
            let mut bytes = Bytes::new(alloc);
            encode(alloc, message, *xid, &mut bytes)?;
            Ok(Saying::Send { conn: *conn, bytes })
        }
        Said::Closing { conn, cause } => Ok(Saying::Close {
            conn: *conn,
            cause: *cause,
        }),
        Said::Line(text) => Ok(Saying::Line(text.copy(alloc)?)),
    }
}

/// What was said, as it goes out: messages as OpenFlow 1.3 spells them.
pub fn make_sayings(alloc: Global, said: &[Said]) -> Result<Sayings, NoMemory>
    ensures { IfOk result (λ made. made ≡ map saying_of said.now) }
{
    let mut made = Sayings::new(alloc);
    for one in said {
        made.push(make_saying(alloc, one)?)?;
    }
    Ok(made)
}
