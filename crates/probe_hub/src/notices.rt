//! What is to be told of ports in the stream of their switch.

ghost use Rattle.std.specs.Prelude.{◌≡◌, ◌∷◌, ◌++◌, [], ◌<◌, length, nat_lt, drop, Some, OnOk, IfOk};
ghost use Rattle.probe_hub.specs.Notices.{first_of, piece_of, port_of, rest_of, without_port};

use net_base::{Bytes, Mac, NoMemory, PortNo};
use of13_codec::{Message, PortDesc, encode};
use std::alloc::Global;
use std::marker::Model;

/// OFPPR_MODIFY, the reason of a PORT_STATUS for a port that is otherwise now (OpenFlow 1.3, 7.4.3).
const MODIFY: u8 = 2;

/// OFPPS_LINK_DOWN of a port's state (7.2.1).
const LINK_DOWN: u32 = 1;

/// A port is to be told down, or up again.
#[derive(Clone, Copy, Debug)]
pub(crate) struct Notice {
    pub(crate) port: PortNo,
    pub(crate) up: bool,
}

/// What is to be told on a connection, in order. Contracts see the list.
#[derive(Debug, Drop)]
pub(crate) struct Notices {
    notices: Vec<Notice>,
}

impl Model for Notices {
    ghost use Rattle.std.specs.Prelude.{List};
    ghost use Rattle.probe_hub.specs.declared.notices.Notice.{Notice};

    ghost Value = { List Notice };

    ghost view = { λ it. it.notices.items };
}

fn forget(notices: &mut Vec<Notice>, port: PortNo)
    ensures { notices.new.items ≡ without_port port notices.old.items }
{
    notices.retain(|notice| notice.port != port);
}

impl Notices {
    /// None, which takes no memory yet.
    pub(crate) fn new(alloc: Global) -> Notices
        ensures { result ≡ [] }
    {
        Notices {
            notices: Vec::new(alloc),
        }
    }

    /// How many there are.
    pub(crate) fn len(&self) -> usize
        ensures { result ≡ length self.now }
    {
        self.notices.len()
    }

    /// Adds one at the end.
    pub(crate) fn push(&mut self, notice: Notice) -> Result<(), NoMemory>
        ensures { OnOk result (self.new ≡ self.old ++ notice ∷ []) }
    {
        self.notices.push(notice)?;
        Ok(())
    }

    /// Takes out those of a port.
    pub(crate) fn forget(&mut self, port: PortNo)
        ensures { self.new ≡ without_port port self.old }
    {
        forget(&mut self.notices, port);
    }

    /// Takes out the first one; `None` exactly where there is none.
    pub(crate) fn take_first(&mut self) -> Option<Notice>
        ensures first { result ≡ first_of self.old }
        ensures rest { self.new ≡ rest_of self.old }
    {
        if self.notices.is_empty() {
            return None;
        }
        Some(self.notices.remove(0))
    }
}

fn make_port(alloc: Global, notice: Notice) -> Result<PortDesc, NoMemory>
    ensures { IfOk result (λ port. port ≡ port_of notice) }
{
    Ok(PortDesc {
        no: notice.port.get(),
        hw: Mac([0; 6]),
        name: Bytes::from_slice(alloc, &[0; 16])?,
        config: 0,
        state: if notice.up { 0 } else { LINK_DOWN },
        rest: Bytes::from_slice(alloc, &[0; 24])?,
    })
}

/// The PORT_STATUS that tells it (OpenFlow 1.3, 7.4.3), with the transaction id 0.
pub(crate) fn make_piece(alloc: Global, notice: Notice) -> Result<Bytes, NoMemory>
    ensures { IfOk result (λ piece. piece ≡ piece_of notice) }
{
    let mut piece = Bytes::new(alloc);
    let message = Message::PortStatus {
        reason: MODIFY,
        port: make_port(alloc, notice)?,
    };
    encode(alloc, &message, 0, &mut piece)?;
    Ok(piece)
}
