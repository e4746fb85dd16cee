//! Cases of walks: where a packet arrives that one datapath takes in. Each line of the input is a case, and is
//! printed with its answer where it asks for one; an empty line, and one that begins with `#`, is printed as it
//! is.
#![tactic(auto)]

use net_base::NoMemory;
use std::alloc::Global;
use std::io;
use test_states::{Asked, Told, print_told};

mod walked;

#[derive(Drop)]
struct Walks;

impl Asked for Walks {
    fn answer(&self, alloc: Global, told: &Told, line: &str) -> Result<Option<String>, NoMemory> {
        match line.strip_prefix("walk ") {
            Some(rest) => walked::walked(alloc, &told.conf, &told.now.now(), rest),
            None => Ok(None),
        }
    }
}

fn main(rt: HostRuntime) -> io::Result<()> {
    print_told(&rt, Walks)
}
