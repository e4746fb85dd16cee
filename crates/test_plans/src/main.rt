//! Cases of plans: the entries of a cold start, what is sent by them, and the commands that lead from one state
//! or configuration to the next. Each line of the input is a case, and is printed with its answer where it asks
//! for one; an empty line, and one that begins with `#`, is printed as it is.
#![tactic(auto)]

use net_base::NoMemory;
use std::alloc::Global;
use std::io;
use test_states::{Asked, Told, print_told};
use test_words::{dp_id, number};

mod named;
mod plan;
mod sent;

#[derive(Drop)]
struct Plans;

impl Asked for Plans {
    fn answer(&self, alloc: Global, told: &Told, line: &str) -> Result<Option<String>, NoMemory> {
        let mut words = line.split_whitespace();
        let name = words.next().unwrap_or("");
        let Some(dp) = dp_id(&mut words) else {
            return Ok(None);
        };
        let conf = &told.conf;
        let now = told.now.now();
        let before = told.last_now.now();
        let text = match name {
            "cold" => plan::cold_start(alloc, conf, &now, dp, number(&mut words))?,
            "sends" => return sent::sent(alloc, conf, &now, dp, &mut words),
            "event" => plan::event(alloc, conf, &before, &now, dp)?,
            "reload" => plan::reload(alloc, (&told.last_conf, &before), (conf, &now), dp)?,
            _ => return Ok(None),
        };
        Ok(Some(text))
    }
}

fn main(rt: HostRuntime) -> io::Result<()> {
    print_told(&rt, Plans)
}
