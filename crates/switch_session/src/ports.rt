ghost use Rattle.std.specs.Prelude.{◌≡◌, ◌==◌, ◌<◌, [], map, filter, not, length, if◌then◌else◌, IfOk, OnErr};
ghost use Rattle.switch_session.specs.Told.{told_of, is_up, knows, takes, told_anew, tell, forget, tell_all};

use net_base::{NoMemory, PortNo};
use of13_codec::PortDesc;
use std::alloc::Global;
use std::marker::Model;

/// As many ports are told at most; further ones are passed over.
pub(crate) const MOST: usize = 4096;

/// OFPPC_PORT_DOWN of a port's config, and OFPPS_LINK_DOWN of its state (OpenFlow 1.3, 7.2.1).
const PORT_DOWN: u32 = 1;

const LINK_DOWN: u32 = 1;

/// What a switch told of a port.
#[derive(Clone, Copy, Debug, PartialEq, Eq)]
pub struct PortTold {
    pub no: PortNo,
    /// Whether the switch told it neither administratively down nor without a link.
    pub up: bool,
}

/// The ports that a switch told, in the order in which it told them first. Contracts see the list.
#[derive(Debug, Drop)]
pub(crate) struct PortsTold {
    ports: Vec<PortTold>,
}

impl Model for PortsTold {
    ghost use Rattle.std.specs.Prelude.{List};
    ghost use Rattle.switch_session.specs.declared.ports.PortTold.{PortTold};

    ghost Value = { List PortTold };

    ghost view = { λ p. p.ports.items };
}

/// Whether the port is neither administratively down nor without a link (OpenFlow 1.3, 7.2.1).
pub fn is_up(port: &PortDesc) -> bool
    ensures { result ≡ is_up port.now }
{
    port.config & PORT_DOWN == 0 && port.state & LINK_DOWN == 0
}

/// What is told of a port; `None` exactly where its number is that of none, as OpenFlow's LOCAL.
pub(crate) fn told_of(port: &PortDesc) -> Option<PortTold>
    ensures { result ≡ told_of port.now }
{
    let no = PortNo::new(port.no)?;
    Some(PortTold {
        no,
        up: is_up(port),
    })
}

/// Whether a port of this number was told.
pub(crate) fn knows(ports: &[PortTold], no: PortNo) -> bool
    ensures { result ≡ knows ports.now no }
{
    ports.iter().any(|port| port.no == no)
}

/// Tells anew a port that was told.
fn replace(ports: &mut [PortTold], port: PortTold)
    ensures { ports.new ≡ told_anew ports.old port }
{
    for told in ports.iter_mut() {
        if told.no == port.no {
            *told = port;
        }
    }
}

/// Whether the port was told: it is passed over where it is new, and as many as may be are told.
#[tactic(auto, unfolding(crate::specs::Told::tell))]
fn tell(ports: &mut Vec<PortTold>, port: PortTold) -> Result<bool, NoMemory>
    ensures ok { IfOk result (λ told. (told ≡ takes ports.old.items port.no) × (ports.new.items ≡ tell ports.old.items port)) }
    ensures err { OnErr result (ports.new.items ≡ ports.old.items) }
{
    if knows(ports.as_slice(), port.no) {
        replace(ports.as_mut_slice(), port);
        Ok(true)
    } else if ports.len() < MOST {
        ports.push(port)?;
        Ok(true)
    } else {
        Ok(false)
    }
}

fn forget(ports: &mut Vec<PortTold>, no: PortNo)
    ensures { ports.new.items ≡ forget ports.old.items no }
{
    ports.retain(|port| port.no != no);
}

impl PortsTold {
    /// No ports, which takes no memory yet.
    pub(crate) fn new(alloc: Global) -> PortsTold
        ensures { result ≡ [] }
    {
        PortsTold {
            ports: Vec::new(alloc),
        }
    }

    pub(crate) fn as_slice(&self) -> &[PortTold]
        ensures { result.now ≡ self.now }
    {
        self.ports.as_slice()
    }

    /// Tells a port, and answers whether it was told and not passed over.
    pub(crate) fn tell(&mut self, port: PortTold) -> Result<bool, NoMemory>
        ensures ok { IfOk result (λ told. (told ≡ takes self.old port.no) × (self.new ≡ tell self.old port)) }
        ensures err { OnErr result (self.new ≡ self.old) }
    {
        tell(&mut self.ports, port)
    }

    /// Takes out the port of a number.
    pub(crate) fn forget(&mut self, no: PortNo)
        ensures { self.new ≡ forget self.old no }
    {
        forget(&mut self.ports, no);
    }

    /// These ports, and then those of a reply told.
    pub(crate) fn with_all(&self, alloc: Global, ports: &[PortDesc]) -> Result<PortsTold, NoMemory>
        ensures { IfOk result (λ all. all ≡ tell_all self.now ports.now) }
    {
        let mut all = PortsTold {
            ports: Vec::from_slice(alloc, self.ports.as_slice())?,
        };
        for port in ports {
            if let Some(told) = told_of(port) {
                let _told = all.tell(told)?;
            }
        }
        Ok(all)
    }
}
