ghost use Rattle.std.specs.Prelude.{◌≡◌, ◌++◌, OnOk, IfOk};
ghost use Rattle.flow_stats.specs.Request.{flow_request, request_bytes};

use net_base::{Bytes, NoMemory};
use of_wire::{put_match, put_number, put_zeros};
use of13_codec::Message;
use std::alloc::Global;

/// The type of a MULTIPART_REQUEST (OpenFlow 1.3, 7.1).
const MULTIPART_REQUEST: u8 = 18;

/// The multipart type of flow statistics (7.3.5).
pub(crate) const FLOW_STATS: u128 = 1;

/// OFPTT_ALL: every table (7.3.4.1).
const ALL_TABLES: u128 = 0xff;

/// OFPP_ANY and OFPG_ANY: whatever the port, and whatever the group (7.2.1, 7.3.4.3).
const ANY: u128 = 0xffff_ffff;

fn put_request(out: &mut Bytes) -> Result<(), NoMemory>
    ensures { OnOk result (out.new ≡ out.old ++ request_bytes) }
{
    put_number(out, FLOW_STATS, 2)?;
    put_number(out, 0, 2)?;
    put_zeros(out, 4)?;
    put_number(out, ALL_TABLES, 1)?;
    put_zeros(out, 3)?;
    put_number(out, ANY, 4)?;
    put_number(out, ANY, 4)?;
    put_zeros(out, 4)?;
    put_number(out, 0, 8)?;
    put_number(out, 0, 8)?;
    put_match(&[], out)
}

/// The request for the statistics of all flow entries: of every table, port, group, cookie and match
/// (OpenFlow 1.3, 7.3.5.2).
pub fn flow_request(alloc: Global) -> Result<Message, NoMemory>
    ensures { IfOk result (λ m. m ≡ flow_request) }
{
    let mut body = Bytes::new(alloc);
    put_request(&mut body)?;
    Ok(Message::Other {
        kind: MULTIPART_REQUEST,
        body,
    })
}
