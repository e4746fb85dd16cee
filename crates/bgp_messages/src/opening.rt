ghost use Rattle.std.specs.Prelude.{◌≡◌, ◌≤◌, length, drop, Option, List, Result, Ok, Err};
ghost use Rattle.bgp_messages.specs.Grammar.{Parsed};
ghost use Rattle.bgp_messages.specs.Opens.{Parameter, SpellsParameters, open_in, parameters_fault, open_fault, are_capabilities, ReadsOpen};

use crate::fault::Fault;
use crate::message::Open;
use crate::number::{u8_at, u16_at, u32_at};
use crate::parameters;

/// The version of the protocol.
const VERSION: u8 = 4;

/// Whether all parameters of an OPEN are capabilities; `None` exactly where lengths disagree.
fn capabilities(body: &[u8]) -> Option<bool>
    requires { 10 ≤ length body.now }
    ensures { (parameters : Option (List Parameter)) × Parsed SpellsParameters body.now parameters × (result ≡ are_capabilities parameters) }
{
    let (_, parameters) = body.split_at(10);
    if usize::from(u8_at(body, 9)) != parameters.len() {
        return None;
    }
    parameters::are_capabilities(parameters)
}

fn parameters_fault(capabilities: Option<bool>, hold: u16) -> Option<Fault>
    ensures { result ≡ parameters_fault capabilities hold }
{
    match capabilities {
        None => Some(Fault::OpenUnspecific),
        Some(false) => Some(Fault::UnsupportedOptionalParameter),
        Some(true) if hold == 1 || hold == 2 => Some(Fault::UnacceptableHoldTime),
        Some(true) => None,
    }
}

fn open_in(body: &[u8]) -> Open
    requires { 10 ≤ length body.now }
    ensures { result ≡ open_in body.now }
{
    Open {
        sender_as: u16_at(body, 1),
        hold: u16_at(body, 3),
        id: u32_at(body, 5),
    }
}

/// The first thing that is wrong with an OPEN of a peer of this AS, where it is told whether all of
/// its parameters are capabilities.
fn open_fault(peer: u16, body: &[u8], capabilities: Option<bool>) -> Option<Fault>
    requires { 10 ≤ length body.now }
    ensures { result ≡ open_fault peer body.now capabilities }
{
    let opening = open_in(body);
    if u8_at(body, 0) != VERSION {
        Some(Fault::UnsupportedVersionNumber)
    } else if opening.sender_as != peer {
        Some(Fault::BadPeerAs)
    } else if opening.id == 0 {
        Some(Fault::BadBgpIdentifier)
    } else {
        parameters_fault(capabilities, opening.hold)
    }
}

/// Reads the body of an OPEN of a peer of this AS (RFC 4271, 4.2 and 6.2).
pub(crate) fn read_open(peer: u16, body: &[u8]) -> Result<Open, Fault>
    requires { 10 ≤ length body.now }
    ensures { ReadsOpen peer body.now result }
{
    match open_fault(peer, body, capabilities(body)) {
        Some(fault) => Err(fault),
        None => Ok(open_in(body)),
    }
}
