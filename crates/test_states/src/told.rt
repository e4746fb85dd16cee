//! What the lines of cases tell.

use crate::learned::Learned;
use crate::state::{nothing_learned, tell};
use conf_check::conf_of_bytes;
use conf_types::Conf;
use net_base::{Moment, NoMemory};
use std::alloc::Global;
use std::str::SplitWhitespace;
use std::{io, mem};
use test_words::moment;

/// The answer where a state isn't valid for its configuration.
pub const NO_STATE: &str = "no valid state";

/// The configuration and the state that the lines so far told, and those that stood before them.
#[derive(Drop)]
pub struct Told {
    pub conf: Conf,
    pub now: Learned,
    /// The configuration that stood before this one.
    pub last_conf: Conf,
    /// The state that stood before this one, of this configuration or of the last.
    pub last_now: Learned,
}

/// A configuration without a datapath.
fn no_conf(alloc: Global) -> io::Result<Conf> {
    match conf_of_bytes(alloc, b"dps: {}") {
        Ok(conf) => Ok(conf),
        Err(_) => Err(io::ErrorKind::InvalidInput.into()),
    }
}

impl Told {
    /// No datapath, and nothing learned.
    pub fn nothing(alloc: Global) -> io::Result<Told> {
        let conf = no_conf(alloc)?;
        let last_conf = no_conf(alloc)?;
        let now = nothing_learned(alloc, &conf, Moment(0))?;
        let last_now = nothing_learned(alloc, &conf, Moment(0))?;
        Ok(Told {
            conf,
            now,
            last_conf,
            last_now,
        })
    }

    /// Takes the configuration of a text from here on, of which nothing is learned yet.
    fn take_conf(&mut self, alloc: Global, text: &str) -> Result<&'static str, NoMemory> {
        let Ok(conf) = conf_of_bytes(alloc, text.as_bytes()) else {
            return Ok("refused");
        };
        let now = nothing_learned(alloc, &conf, Moment(0))?;
        self.last_conf = mem::replace(&mut self.conf, conf);
        self.last_now = mem::replace(&mut self.now, now);
        Ok("accepted")
    }

    /// Takes another state from here on, of which nothing is learned yet.
    fn take_state(
        &mut self,
        alloc: Global,
        words: &mut SplitWhitespace<'_>,
    ) -> Result<bool, NoMemory> {
        let Some(moment) = moment(words) else {
            return Ok(false);
        };
        let now = nothing_learned(alloc, &self.conf, moment)?;
        self.last_now = mem::replace(&mut self.now, now);
        Ok(true)
    }

    /// Takes in what a line tells: a configuration, another state, or what is learned. Gives what stands behind
    /// such a line; `None` where it tells nothing.
    pub fn tell(&mut self, alloc: Global, line: &str) -> Result<Option<String>, NoMemory> {
        if let Some(text) = line.strip_prefix("conf ") {
            let answer = self.take_conf(alloc, text)?;
            return Ok(Some(format!(in alloc; " => {answer}")?));
        }
        let mut words = line.split_whitespace();
        let name = words.next().unwrap_or("");
        let is_told = match name {
            "state" => self.take_state(alloc, &mut words)?,
            _ => tell(alloc, &mut self.now, name, &mut words)?,
        };
        if is_told {
            Ok(Some(String::new(alloc)))
        } else {
            Ok(None)
        }
    }
}
