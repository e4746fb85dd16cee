//! The Gauge that the lines speak of.

use conf_check::conf_of_bytes;
use conf_types::Conf;
use fg_outside::Happening;
use gauge_conf::{GaugeConf, read_gauge, resolve_gauge};
use gauge_poll::{Gauge, GaugeTurn};
use net_base::NoMemory;
use std::alloc::Global;
use std::mem::replace;
use test_lines::{Answers, write_escaped};
use test_turns::{happening, put_saying};
use yaml_subset::read_yaml;

/// The configuration of the switches that was taken last, until a Gauge has it, and the Gauge.
#[derive(Drop)]
pub struct Bench {
    conf: Option<Conf>,
    gauge: Option<Gauge>,
}

fn shown(alloc: Global, given: &GaugeTurn) -> Result<String, NoMemory> {
    let mut out = String::new(alloc);
    for saying in given.sayings.as_slice() {
        put_saying(alloc, &mut out, saying)?;
    }
    for line in given.lines.as_slice() {
        out.push_str("\n  gives ")?;
        write_escaped(&mut out, line.as_str())?;
    }
    Ok(out)
}

fn turn(alloc: Global, gauge: &mut Gauge, what: &Happening) -> Result<String, NoMemory> {
    let given = gauge.turn(what)?;
    shown(alloc, &given)
}

/// What Gauge's file says, with a configuration; `None` where it is refused.
fn watched(alloc: Global, text: &str, conf: Conf) -> Result<Option<GaugeConf>, NoMemory> {
    let Ok(tree) = read_yaml(alloc, text.as_bytes()) else {
        return Ok(None);
    };
    let Ok(raw) = read_gauge(alloc, &tree) else {
        return Ok(None);
    };
    Ok(resolve_gauge(alloc, &raw, conf).ok())
}

impl Bench {
    /// No Gauge yet.
    pub fn new() -> Bench {
        Bench {
            conf: None,
            gauge: None,
        }
    }

    fn take_conf(&mut self, alloc: Global, text: &str) -> Result<String, NoMemory> {
        match conf_of_bytes(alloc, text.as_bytes()) {
            Ok(conf) => {
                self.conf = Some(conf);
                String::from_str(alloc, " => accepted")
            }
            Err(_) => String::from_str(alloc, " => refused"),
        }
    }

    fn take_gauge(&mut self, alloc: Global, text: &str) -> Result<String, NoMemory> {
        let Some(conf) = replace(&mut self.conf, None) else {
            return String::from_str(alloc, " => no configuration");
        };
        match watched(alloc, text, conf)? {
            Some(watched) => {
                self.gauge = Some(Gauge::new(alloc, watched)?);
                String::from_str(alloc, " => accepted")
            }
            None => String::from_str(alloc, " => refused"),
        }
    }
}

impl Answers for Bench {
    fn answer(&mut self, alloc: Global, line: &str) -> Result<String, NoMemory> {
        let (name, rest) = line.split_once(' ').unwrap_or((line, ""));
        if name == "conf" {
            return self.take_conf(alloc, rest);
        }
        if name == "gauge" {
            return self.take_gauge(alloc, rest);
        }
        match (&mut self.gauge, happening(alloc, name, rest)?) {
            (Some(gauge), Some(what)) => turn(alloc, gauge, &what),
            _ => Ok(String::new(alloc)),
        }
    }
}
