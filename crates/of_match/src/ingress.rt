ghost use Rattle.std.specs.Prelude.{◌≡◌};
ghost use Rattle.std.specs.List.{find};
ghost use Rattle.std.specs.Option.{option_copied};
ghost use Rattle.of_match.specs.InPort.{in_port, is_in_port, port_of};

use net_base::{Field, PortNo};

/// The number of the field IN_PORT (OpenFlow 1.3, 7.2.3.7).
const IN_PORT_FIELD: u8 = 0;

fn port_of(value: u128) -> Option<PortNo>
    ensures { result ≡ port_of value }
{
    if value <= 0xffff_ff00 {
        PortNo::new(value as u32)
    } else {
        None
    }
}

fn is_in_port(field: &Field) -> bool
    ensures { result ≡ is_in_port field.now }
{
    field.id.number() == IN_PORT_FIELD
}

fn find_in_port(fields: &[Field]) -> Option<&Field>
    ensures { option_copied result ≡ find is_in_port fields.now }
{
    fields.iter().find(|field| is_in_port(field))
}

/// The port that a packet came in by, as the match of a PACKET_IN says it (OpenFlow 1.3, 7.4.1): the
/// value of its first field IN_PORT, whatever the mask is. `None` exactly where there is no such field,
/// or its value is no port's number.
pub fn in_port(fields: &[Field]) -> Option<PortNo>
    ensures { result ≡ in_port fields.now }
{
    match find_in_port(fields) {
        Some(field) => port_of(field.value),
        None => None,
    }
}
