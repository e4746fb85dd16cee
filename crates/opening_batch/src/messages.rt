ghost use Rattle.std.specs.Prelude.{◌≡◌, ◌++◌, IfOk, OnOk};
ghost use Rattle.of13_codec.specs.Messages.{written};
ghost use Rattle.flow_messages.specs.Messages.{add, delete_all};
ghost use Rattle.opening_batch.specs.Messages.{next_xid, adds, xid_after, opening};

use flow_messages::{make_add, make_delete_all};
use net_base::{Bytes, NoMemory};
use of_match::Tables;
use of13_codec::{Message, encode};
use std::alloc::Global;

/// The transaction id behind another one.
fn xid_behind(xid: u32) -> u32
    ensures { result ≡ next_xid xid }
{
    if xid == u32::MAX { 1 } else { xid + 1 }
}

/// Writes one add for each entry, and gives the transaction id behind the last.
fn put_adds(alloc: Global, out: &mut Bytes, first: u32, tables: &Tables) -> Result<u32, NoMemory>
    ensures bytes { OnOk result (out.new ≡ out.old ++ adds first tables.now) }
    ensures xid { IfOk result (λ xid. xid ≡ xid_after first tables.now) }
{
    let mut xid = first;
    for entry in tables.iter() {
        let message = make_add(alloc, entry)?;
        encode(alloc, &message, xid, out)?;
        xid = xid_behind(xid);
    }
    Ok(xid)
}

/// The batch that opens a datapath with these entries: the tables are wiped, and behind a barrier
/// the entries are added, with a barrier at the end. Transaction ids count from 1.
pub fn make_opening(alloc: Global, tables: &Tables) -> Result<Bytes, NoMemory>
    ensures { IfOk result (λ made. made ≡ opening tables.now) }
{
    let mut out = Bytes::new(alloc);
    encode(alloc, &make_delete_all(alloc), 1, &mut out)?;
    encode(alloc, &Message::BarrierRequest, 2, &mut out)?;
    let last = put_adds(alloc, &mut out, 3, tables)?;
    encode(alloc, &Message::BarrierRequest, last, &mut out)?;
    Ok(out)
}
