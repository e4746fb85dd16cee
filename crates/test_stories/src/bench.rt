//! The controller that the lines speak of.

use crate::units::Uncounted;
use conf_check::conf_of_bytes;
use ctl_core::Controller;
use fg_outside::Happening;
use net_base::NoMemory;
use std::alloc::Global;
use test_lines::Answers;
use test_turns::{happening, put_saying};

/// The controller of the last configuration, if one was taken.
#[derive(Drop)]
pub struct Bench {
    controller: Option<Controller>,
}

fn turn(alloc: Global, controller: &mut Controller, what: &Happening) -> Result<String, NoMemory> {
    let mut out = String::new(alloc);
    let sayings = controller.turn(what, &mut Uncounted)?;
    for saying in sayings.as_slice() {
        put_saying(alloc, &mut out, saying)?;
    }
    Ok(out)
}

impl Bench {
    /// No controller yet.
    pub fn new() -> Bench {
        Bench { controller: None }
    }

    fn take_conf(&mut self, alloc: Global, text: &str) -> Result<String, NoMemory> {
        match conf_of_bytes(alloc, text.as_bytes()) {
            Ok(conf) => {
                self.controller = Some(Controller::new(alloc, conf)?);
                String::from_str(alloc, " => accepted")
            }
            Err(_) => String::from_str(alloc, " => refused"),
        }
    }
}

impl Answers for Bench {
    fn answer(&mut self, alloc: Global, line: &str) -> Result<String, NoMemory> {
        let (name, rest) = line.split_once(' ').unwrap_or((line, ""));
        if name == "conf" {
            return self.take_conf(alloc, rest);
        }
        match (&mut self.controller, happening(alloc, name, rest)?) {
            (Some(controller), Some(what)) => turn(alloc, controller, &what),
            _ => Ok(String::new(alloc)),
        }
    }
}
