//! Which messages leave the state of a connection as it is.

ghost use Rattle.std.specs.Prelude.{◌≡◌};
ghost use Rattle.std.specs.List.{list_any};
ghost use Rattle.switch_session.specs.Told.{told_of};
ghost use Rattle.switch_session.specs.Staying.{differs, is_passed, is_told, leaves, leaves_ports};

use crate::ports::{MOST, PortTold, knows, told_of};
use crate::state::{DELETE, Stage, State};
use of13_codec::{Message, PortDesc};

fn differs(port: PortTold, told: &PortTold) -> bool
    ensures { result ≡ differs port told.now }
{
    told.no == port.no && told.up != port.up
}

fn any_differs(ports: &[PortTold], port: PortTold) -> bool
    ensures { result ≡ list_any (differs port) ports.now }
{
    ports.iter().any(|told| differs(port, told))
}

/// Whether the port was told so, or is a further one where as many as may be are told.
fn is_told(ports: &[PortTold], port: PortTold) -> bool
    ensures { result ≡ is_told ports.now port }
{
    if knows(ports, port.no) {
        !any_differs(ports, port)
    } else {
        ports.len() >= MOST
    }
}

/// Whether a PORT_STATUS leaves the ports that were told as they are.
fn leaves_ports(ports: &[PortTold], reason: u8, port: &PortDesc) -> bool
    ensures { result ≡ leaves_ports ports.now reason (told_of port.now) }
{
    match told_of(port) {
        Some(told) if reason == DELETE => !knows(ports, told.no),
        Some(told) => is_told(ports, told),
        None => true,
    }
}

/// Whether the stage awaits something else.
fn is_passed(state: &State, message: &Message, xid: u32) -> bool
    ensures { result ≡ is_passed state.now.stage state.now message.now xid }
{
    match (state.stage, message) {
        (Stage::Greeting, Message::Hello { .. }) => false,
        (Stage::Features, Message::FeaturesReply(_)) => false,
        (Stage::Ports, Message::PortDescReply { .. }) => !state.awaits(xid),
        (Stage::Wiping | Stage::Running, Message::BarrierReply) => !state.awaits(xid),
        _ => true,
    }
}

/// Whether a message leaves a state as it is; of some that do the answer is `false`.
pub(crate) fn leaves(state: &State, message: &Message, xid: u32) -> bool
    ensures { result ≡ leaves state.now message.now xid }
{
    match message {
        Message::Error { .. } => false,
        Message::EchoRequest(_) => true,
        Message::PortStatus { reason, port } => leaves_ports(state.ports.as_slice(), *reason, port),
        _ => is_passed(state, message, xid),
    }
}
