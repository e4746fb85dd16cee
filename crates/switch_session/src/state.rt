ghost use Rattle.std.specs.Prelude.{◌≡◌, [], IfOk, OnErr};
ghost use Rattle.switch_session.specs.declared.state.Stage.TheVariants.{Greeting, Features, Ports, Wiping, Running, Shut};
ghost use Rattle.switch_session.specs.Stages.{speaks, awaits, closed, greeted, with_port_told, changed, described, awaited, heard, leads};

use crate::closing::Closing;
use crate::ports::{PortTold, PortsTold, told_of};
use net_base::{DpId, NoMemory, PortNo};
use of13_codec::{Message, PortDesc};
use std::alloc::Global;

/// OFPPR_DELETE, the reason of a PORT_STATUS for a port that is gone (OpenFlow 1.3, 7.4.3).
pub(crate) const DELETE: u8 = 1;

/// The bit of OpenFlow 1.3 in a HELLO's bitmap of versions (7.5.1).
const VERSION_BIT: u32 = 1 << 4;

/// How far a connection is set up.
#[derive(Clone, Copy, Debug, PartialEq, Eq)]
pub enum Stage {
    /// The switch's HELLO is awaited (OpenFlow 1.3, 6.3.1).
    Greeting,
    /// Its FEATURES_REPLY is awaited (7.3.1).
    Features,
    /// The descriptions of its ports are awaited (7.3.5.7).
    Ports,
    /// The barrier behind the wiping of its tables is awaited (7.3.8).
    Wiping,
    /// It runs.
    Running,
    /// The connection was closed: what comes is passed over.
    Shut,
}

/// What a message did.
#[derive(Clone, Copy, Debug, PartialEq, Eq)]
pub enum Step {
    /// It was passed over, or more of it is awaited.
    Nothing,
    /// A FEATURES_REQUEST is to be said.
    AskFeatures,
    /// The switch told what it is.
    Features {
        dp: DpId,
        n_tables: u8,
        auxiliary: u8,
    },
    /// All ports are told.
    PortsKnown,
    /// The tables are wiped: the switch runs.
    Wiped,
    /// The barrier behind a batch was answered.
    Settled,
    /// A port was told, or told to be gone.
    PortChanged(PortNo),
    /// A packet came in.
    Packet,
    /// An echo is asked for.
    Echo,
    /// The connection is to be closed.
    Close(Closing),
}

/// What messages change: the stage, the transaction id of the barrier or port request that is
/// outstanding, and the ports that were told.
#[derive(Debug, Drop)]
pub(crate) struct State {
    pub(crate) stage: Stage,
    pub(crate) awaited: Option<u32>,
    pub(crate) ports: PortsTold,
}

/// Whether a HELLO speaks OpenFlow 1.3.
fn speaks(version: u8, bitmap: Option<u32>) -> bool
    ensures { result ≡ speaks version bitmap }
{
    match bitmap {
        Some(bitmap) => bitmap & VERSION_BIT != 0,
        None => version >= 4,
    }
}

impl State {
    /// Before the first message.
    pub(crate) fn new(alloc: Global) -> State
        ensures { result ≡ record { stage = Greeting; awaited = None; ports = [] } }
    {
        State {
            stage: Stage::Greeting,
            awaited: None,
            ports: PortsTold::new(alloc),
        }
    }

    /// Whether the outstanding barrier or port request has this transaction id.
    pub(crate) fn awaits(&self, xid: u32) -> bool
        ensures { result ≡ awaits self.now xid }
    {
        match self.awaited {
            Some(awaited) => awaited == xid,
            None => false,
        }
    }

    fn close(&mut self, closing: Closing) -> Step
        ensures { (self.new, result) ≡ closed self.old closing }
    {
        self.stage = Stage::Shut;
        Step::Close(closing)
    }

    /// What was awaited came.
    fn enter(&mut self, stage: Stage)
        ensures { self.new ≡ record self.old { stage = stage; awaited = None } }
    {
        self.stage = stage;
        self.awaited = None;
    }

    fn greet(&mut self, version: u8, bitmap: Option<u32>) -> Step
        ensures { (self.new, result) ≡ greeted self.old version bitmap }
    {
        if !speaks(version, bitmap) {
            return self.close(Closing::WrongVersion);
        }
        self.stage = Stage::Features;
        Step::AskFeatures
    }

    /// A port that is there.
    fn tell_port(&mut self, port: PortTold) -> Result<Step, NoMemory>
        ensures ok { IfOk result (λ step. (self.new, step) ≡ with_port_told self.old port) }
        ensures err { OnErr result (self.new ≡ self.old) }
    {
        let no = port.no;
        let is_told = self.ports.tell(port)?;
        if is_told {
            Ok(Step::PortChanged(no))
        } else {
            Ok(Step::Nothing)
        }
    }

    /// A PORT_STATUS (OpenFlow 1.3, 7.4.3).
    fn change_port(&mut self, reason: u8, port: &PortDesc) -> Result<Step, NoMemory>
        ensures ok { IfOk result (λ step. (self.new, step) ≡ changed self.old reason port.now) }
        ensures err { OnErr result (self.new ≡ self.old) }
    {
        match told_of(port) {
            Some(told) if reason == DELETE => {
                self.ports.forget(told.no);
                Ok(Step::PortChanged(told.no))
            }
            Some(told) => self.tell_port(told),
            None => Ok(Step::Nothing),
        }
    }

    /// A part of the reply with the ports' descriptions.
    fn describe(&mut self, alloc: Global, more: bool, ports: &[PortDesc]) -> Result<Step, NoMemory>
        ensures ok { IfOk result (λ step. (self.new, step) ≡ described self.old more ports.now) }
        ensures err { OnErr result (self.new ≡ self.old) }
    {
        self.ports = self.ports.with_all(alloc, ports)?;
        if more {
            return Ok(Step::Nothing);
        }
        self.enter(Stage::Wiping);
        Ok(Step::PortsKnown)
    }

    fn hear_greeting(&mut self, message: &Message, xid: u32) -> Step
        ensures { (self.new, result) ≡ awaited Greeting self.old message.now xid }
    {
        match message {
            Message::Hello { version, bitmap } => self.greet(*version, *bitmap),
            _ => Step::Nothing,
        }
    }

    fn hear_features(&mut self, message: &Message, xid: u32) -> Step
        ensures { (self.new, result) ≡ awaited Features self.old message.now xid }
    {
        match message {
            Message::FeaturesReply(reply) => {
                self.stage = Stage::Ports;
                Step::Features {
                    dp: reply.dp,
                    n_tables: reply.n_tables,
                    auxiliary: reply.auxiliary,
                }
            }
            _ => Step::Nothing,
        }
    }

    fn hear_ports(&mut self, alloc: Global, message: &Message, xid: u32) -> Result<Step, NoMemory>
        ensures ok { IfOk result (λ step. (self.new, step) ≡ awaited Ports self.old message.now xid) }
        ensures err { OnErr result (self.new ≡ self.old) }
    {
        match message {
            Message::PortDescReply { more, ports } if self.awaits(xid) => {
                self.describe(alloc, *more, ports.as_slice())
            }
            _ => Ok(Step::Nothing),
        }
    }

    fn hear_wiping(&mut self, message: &Message, xid: u32) -> Step
        ensures { (self.new, result) ≡ awaited Wiping self.old message.now xid }
    {
        match message {
            Message::BarrierReply if self.awaits(xid) => {
                self.enter(Stage::Running);
                Step::Wiped
            }
            _ => Step::Nothing,
        }
    }

    fn hear_running(&mut self, message: &Message, xid: u32) -> Step
        ensures { (self.new, result) ≡ awaited Running self.old message.now xid }
    {
        match message {
            Message::BarrierReply if self.awaits(xid) => {
                self.enter(Stage::Running);
                Step::Settled
            }
            Message::PacketIn(_) => Step::Packet,
            _ => Step::Nothing,
        }
    }

    /// What a stage awaits; anything else is passed over.
    fn hear_awaited(&mut self, alloc: Global, message: &Message, xid: u32) -> Result<Step, NoMemory>
        ensures ok { IfOk result (λ step. (self.new, step) ≡ awaited self.old.stage self.old message.now xid) }
        ensures err { OnErr result (self.new ≡ self.old) }
    {
        match self.stage {
            Stage::Greeting => Ok(self.hear_greeting(message, xid)),
            Stage::Features => Ok(self.hear_features(message, xid)),
            Stage::Ports => self.hear_ports(alloc, message, xid),
            Stage::Wiping => Ok(self.hear_wiping(message, xid)),
            Stage::Running => Ok(self.hear_running(message, xid)),
            Stage::Shut => Ok(Step::Nothing),
        }
    }

    /// What counts in every stage, and else what the stage awaits.
    fn hear_open(&mut self, alloc: Global, message: &Message, xid: u32) -> Result<Step, NoMemory>
        ensures ok { IfOk result (λ step. (self.new, step) ≡ heard self.old message.now xid) }
        ensures err { OnErr result (self.new ≡ self.old) }
    {
        match message {
            Message::Error { kind, code, .. } => Ok(self.close(Closing::SwitchError {
                kind: *kind,
                code: *code,
            })),
            Message::EchoRequest(_) => Ok(Step::Echo),
            Message::PortStatus { reason, port } => self.change_port(*reason, port),
            _ => self.hear_awaited(alloc, message, xid),
        }
    }

    /// Takes a message. After `NoMemory` the state is as it was.
    pub(crate) fn hear(
        &mut self,
        alloc: Global,
        message: &Message,
        xid: u32,
    ) -> Result<Step, NoMemory>
        ensures ok { IfOk result (λ step. (self.new, step) ≡ leads self.old message.now xid) }
        ensures err { OnErr result (self.new ≡ self.old) }
    {
        match self.stage {
            Stage::Shut => Ok(Step::Nothing),
            _ => self.hear_open(alloc, message, xid),
        }
    }
}
