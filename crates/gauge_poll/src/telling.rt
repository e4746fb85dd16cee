//! What a message tells of which a Gauge writes.

ghost use Rattle.std.specs.Prelude.{◌≡◌, IfOk};
ghost use Rattle.gauge_poll.specs.Telling.{answers, telling, telling_of};
ghost use Rattle.flow_stats.specs.Reading.{part_at};

use flow_stats::{FlowPart, flow_part};
use gauge_conf::WatchKind;
use net_base::{NoMemory, TryCopy};
use of_wire::PartRefused;
use of13_codec::{Message, PortDesc, PortStatsList};
use std::alloc::{AllocError, Global};

/// MULTIPART_REPLY (OpenFlow 1.3, 7.1).
const MULTIPART_REPLY: u8 = 19;

/// What a message tells of which a Gauge writes.
#[derive(Debug, Drop)]
pub enum Telling {
    /// A part of a reply with ports' counters (OpenFlow 1.3, 7.3.5.6); more may follow.
    Ports { more: bool, stats: PortStatsList },
    /// A part of a reply with flow statistics (7.3.5.2).
    Flows(FlowPart),
    /// A port was added, changed or deleted (7.4.3).
    State { reason: u8, port: PortDesc },
    Nothing,
}

/// What the body of a MULTIPART_REPLY tells of flow entries; `None` where one of them is wrong.
fn read_body(alloc: Global, body: &[u8]) -> Result<Option<Telling>, NoMemory>
    ensures { IfOk result (λ told. told ≡ telling_of (part_at body.now)) }
{
    match flow_part(alloc, body) {
        Ok(Some(part)) => Ok(Some(Telling::Flows(part))),
        Ok(None) => Ok(Some(Telling::Nothing)),
        Err(PartRefused::At(_)) => Ok(None),
        Err(PartRefused::Memory) => Err(AllocError),
    }
}

/// What a message tells; `None` where one of its flow entries is wrong.
pub(crate) fn read_telling(alloc: Global, message: &Message) -> Result<Option<Telling>, NoMemory>
    ensures { IfOk result (λ told. told ≡ telling message.now) }
{
    match message {
        Message::PortStatsReply { more, ports } => Ok(Some(Telling::Ports {
            more: *more,
            stats: ports.copy(alloc)?,
        })),
        Message::PortStatus { reason, port } => Ok(Some(Telling::State {
            reason: *reason,
            port: port.copy(alloc)?,
        })),
        Message::Other { kind, body } if *kind == MULTIPART_REPLY => {
            read_body(alloc, body.as_slice())
        }
        _ => Ok(Some(Telling::Nothing)),
    }
}

/// Whether what was asked for is told.
pub(crate) fn answers(kind: WatchKind, told: &Telling) -> bool
    ensures { result ≡ answers kind told.now }
{
    match kind {
        WatchKind::PortState => false,
        WatchKind::PortStats => matches!(told, Telling::Ports { .. }),
        WatchKind::FlowTable => matches!(told, Telling::Flows(_)),
    }
}
