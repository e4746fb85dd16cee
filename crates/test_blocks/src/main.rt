//! Cases of flow statistics and of blocks of samples: each line of the input is a case, and is printed with its
//! answer; an empty line, and one that begins with `#`, is printed as it is. `request` asks for the request of
//! flow statistics with the transaction id 3, and `part BYTES` for what the body of a reply tells. `dp ID NAME`
//! has the datapath from there on, and `port NUMBER NAME` one interface more of it. `ports`, `flows` and
//! `state` ask for its blocks: of items `NUMBER:COUNTER,COUNTER..`, in which counters that aren't there are 0,
//! of items `TABLE:PRIORITY:MATCH:PACKETS:BYTES`, and of `NUMBER up` or `NUMBER down`. Of a long block the
//! number of its lines, its second and its last but one are told. Bytes stand in hexadecimal digits, and
//! `«COUNT:PIECE»` for the piece so many times, with its number for each `№` in it.
#![tactic(auto)]

mod bench;
mod blocks;
mod parts;

use bench::Bench;
use std::io;
use test_lines::print_answered;

fn main(rt: HostRuntime) -> io::Result<()> {
    print_answered(&rt, &mut Bench::new())
}
