//! The datapath that the lines speak of.

use crate::blocks::{flows, ports, state, write_block};
use crate::parts::{write_part, write_request};
use conf_types::{Dp, Port, PortNos, Ports, Vids};
use net_base::{DpId, Names, NoMemory, PortNo, Text};
use std::alloc::Global;
use std::str::from_utf8;
use test_lines::{Answers, bytes_of, unescaped};

/// The datapath of the last line that named one, with its interfaces so far.
#[derive(Drop)]
pub struct Bench {
    dp: Option<Dp>,
}

/// A name in which escapes stand for bytes.
fn name_of(alloc: Global, text: &str) -> Result<Text, NoMemory> {
    let bytes = unescaped(alloc, text)?;
    Text::from_str(alloc, from_utf8(bytes.as_slice()).unwrap_or("no text"))
}

fn dp_of(alloc: Global, id: u64, name: &str) -> Result<Dp, NoMemory> {
    Ok(Dp {
        id: DpId(id),
        name: name_of(alloc, name)?,
        description: Text::new(alloc),
        hardware: Text::new(alloc),
        timeout: 300,
        arp_timeout: 30,
        stack_priority: None,
        lldp: None,
        drop_spoofed: true,
        drop_broadcast: true,
        drop_bpdu: true,
        drop_lldp: true,
        ports: Ports::new(alloc),
    })
}

fn port_of(alloc: Global, no: PortNo, name: &str) -> Result<Port, NoMemory> {
    Ok(Port {
        no,
        name: name_of(alloc, name)?,
        description: Text::new(alloc),
        enabled: true,
        native: None,
        tagged: Vids::new(alloc),
        acls: Names::new(alloc),
        output_only: false,
        hairpin: false,
        unicast_flood: true,
        permanent_learn: false,
        opstatus_reconf: true,
        max_hosts: 255,
        mirror: PortNos::new(alloc),
        stack: None,
    })
}

impl Bench {
    /// No datapath yet.
    pub fn new() -> Bench {
        Bench { dp: None }
    }

    fn add_port(&mut self, alloc: Global, text: &str) -> Result<(), NoMemory> {
        let (no, name) = text.split_once(' ').unwrap_or((text, ""));
        if let (Some(dp), Some(no)) = (&mut self.dp, PortNo::new(no.parse::<u32>().unwrap_or(0))) {
            dp.ports.push(port_of(alloc, no, name)?)?;
        }
        Ok(())
    }

    fn block(&self, alloc: Global, kind: &str, text: &str) -> Result<Option<Text>, NoMemory> {
        let Some(dp) = &self.dp else {
            return Ok(None);
        };
        match kind {
            "ports" => Ok(Some(ports(alloc, dp, text)?)),
            "flows" => Ok(Some(flows(alloc, dp, text)?)),
            "state" => Ok(Some(state(alloc, dp, text)?)),
            _ => Ok(None),
        }
    }

    fn write(
        &self,
        out: &mut String,
        alloc: Global,
        kind: &str,
        text: &str,
    ) -> Result<(), NoMemory> {
        match kind {
            "request" => write_request(out, alloc),
            "part" => write_part(out, alloc, bytes_of(alloc, text)?.as_slice()),
            _ => match self.block(alloc, kind, text)? {
                Some(block) => write_block(out, block.as_str()),
                None => out.push_str("no such kind"),
            },
        }
    }
}

impl Answers for Bench {
    fn answer(&mut self, alloc: Global, line: &str) -> Result<String, NoMemory> {
        let (kind, text) = line.split_once(' ').unwrap_or((line, ""));
        if kind == "dp" {
            let (id, name) = text.split_once(' ').unwrap_or((text, ""));
            self.dp = Some(dp_of(alloc, id.parse::<u64>().unwrap_or(0), name)?);
            return Ok(String::new(alloc));
        }
        if kind == "port" {
            self.add_port(alloc, text)?;
            return Ok(String::new(alloc));
        }
        let mut out = String::from_str(alloc, " => ")?;
        self.write(&mut out, alloc, kind, text)?;
        Ok(out)
    }
}
