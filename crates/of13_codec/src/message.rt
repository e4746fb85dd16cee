ghost use Rattle.std.specs.Prelude.{◌≡◌};
ghost use Rattle.of13_codec.specs.Messages.{kind_of, version_of};

use crate::features::FeaturesReply;
use crate::flow_mod::FlowMod;
use crate::packet_in::PacketIn;
use crate::packet_out::PacketOut;
use crate::ports::{PortDesc, PortDescs, PortStatsList};
use net_base::{Bytes, NoMemory, TryCopy};
use std::alloc::Global;

/// The wire version of OpenFlow 1.3.
pub const VERSION: u8 = 4;

/// A message (OpenFlow 1.3, 7).
#[derive(Debug, Drop)]
pub enum Message {
    /// HELLO (7.5.1): the highest version of the sender, and the versions that it knows.
    Hello {
        version: u8,
        bitmap: Option<u32>,
    },
    /// ERROR (7.4.4).
    Error {
        kind: u16,
        code: u16,
        payload: Bytes,
    },
    /// ECHO_REQUEST (7.5.2).
    EchoRequest(Bytes),
    /// ECHO_REPLY (7.5.3).
    EchoReply(Bytes),
    /// FEATURES_REQUEST (7.3.1).
    FeaturesRequest,
    /// FEATURES_REPLY (7.3.1).
    FeaturesReply(FeaturesReply),
    /// PACKET_IN (7.4.1).
    PacketIn(PacketIn),
    /// PORT_STATUS (7.4.3).
    PortStatus {
        reason: u8,
        port: PortDesc,
    },
    /// PACKET_OUT (7.3.7).
    PacketOut(PacketOut),
    /// FLOW_MOD (7.3.4.1).
    FlowMod(FlowMod),
    /// MULTIPART_REQUEST of the ports' descriptions (7.3.5.7).
    PortDescRequest,
    /// MULTIPART_REQUEST of a port's counters, or of all ports' (7.3.5.6).
    PortStatsRequest {
        port: u32,
    },
    /// MULTIPART_REPLY with ports' descriptions; more may follow.
    PortDescReply {
        more: bool,
        ports: PortDescs,
    },
    /// MULTIPART_REPLY with ports' counters; more may follow.
    PortStatsReply {
        more: bool,
        ports: PortStatsList,
    },
    /// BARRIER_REQUEST (7.3.8).
    BarrierRequest,
    /// BARRIER_REPLY (7.3.8).
    BarrierReply,
    /// A message of another type, or of another multipart type.
    Other {
        kind: u8,
        body: Bytes,
    },
}

impl Message {
    /// The version in the header.
    pub fn version(&self) -> u8
        ensures { result ≡ version_of self.now }
    {
        match self {
            Message::Hello { version, .. } => *version,
            _ => VERSION,
        }
    }

    /// The type in the header (OpenFlow 1.3, 7.1).
    pub fn kind(&self) -> u8
        ensures { result ≡ kind_of self.now }
    {
        match self {
            Message::Hello { .. } => 0,
            Message::Error { .. } => 1,
            Message::EchoRequest(_) => 2,
            Message::EchoReply(_) => 3,
            Message::FeaturesRequest => 5,
            Message::FeaturesReply(_) => 6,
            Message::PacketIn(_) => 10,
            Message::PortStatus { .. } => 12,
            Message::PacketOut(_) => 13,
            Message::FlowMod(_) => 14,
            Message::PortDescRequest | Message::PortStatsRequest { .. } => 18,
            Message::PortDescReply { .. } | Message::PortStatsReply { .. } => 19,
            Message::BarrierRequest => 20,
            Message::BarrierReply => 21,
            Message::Other { kind, .. } => *kind,
        }
    }
}

impl TryCopy for Message {
    fn copy(&self, alloc: Global) -> Result<Message, NoMemory> {
        match self {
            Message::Hello { version, bitmap } => Ok(Message::Hello {
                version: *version,
                bitmap: *bitmap,
            }),
            Message::Error {
                kind,
                code,
                payload,
            } => Ok(Message::Error {
                kind: *kind,
                code: *code,
                payload: payload.copy(alloc)?,
            }),
            Message::EchoRequest(data) => Ok(Message::EchoRequest(data.copy(alloc)?)),
            Message::EchoReply(data) => Ok(Message::EchoReply(data.copy(alloc)?)),
            Message::FeaturesRequest => Ok(Message::FeaturesRequest),
            Message::FeaturesReply(m) => Ok(Message::FeaturesReply(*m)),
            Message::PacketIn(m) => Ok(Message::PacketIn(m.copy(alloc)?)),
            Message::PortStatus { reason, port } => Ok(Message::PortStatus {
                reason: *reason,
                port: port.copy(alloc)?,
            }),
            Message::PacketOut(m) => Ok(Message::PacketOut(m.copy(alloc)?)),
            Message::FlowMod(m) => Ok(Message::FlowMod(m.copy(alloc)?)),
            Message::PortDescRequest => Ok(Message::PortDescRequest),
            Message::PortStatsRequest { port } => Ok(Message::PortStatsRequest { port: *port }),
            Message::PortDescReply { more, ports } => Ok(Message::PortDescReply {
                more: *more,
                ports: ports.copy(alloc)?,
            }),
            Message::PortStatsReply { more, ports } => Ok(Message::PortStatsReply {
                more: *more,
                ports: ports.copy(alloc)?,
            }),
            Message::BarrierRequest => Ok(Message::BarrierRequest),
            Message::BarrierReply => Ok(Message::BarrierReply),
            Message::Other { kind, body } => Ok(Message::Other {
                kind: *kind,
                body: body.copy(alloc)?,
            }),
        }
    }
}
