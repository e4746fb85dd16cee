ghost use Rattle.std.specs.Prelude.{◌≡◌, unwrap_or};
ghost use Rattle.std.specs.Char.{is_ascii_digit};
ghost use Rattle.std.specs.List.{list_all};
ghost use Rattle.std.specs.Option.{option_map};
ghost use Rattle.net_base.specs.AddressReading.{ip4_of};
ghost use Rattle.command_line.specs.Values.{is_numeral, number_in, address_and_port, listen_of, value_of};

use crate::parts::CommandOption;
use net_base::Ip4;

/// Where connections are listened for.
#[derive(Clone, Copy, Debug, PartialEq, Eq)]
pub struct Listen {
    pub ip: Ip4,
    pub port: u16,
}

fn are_digits(bytes: &[u8]) -> bool
    ensures { result ≡ list_all is_ascii_digit bytes.now }
{
    bytes.iter().all(|byte| byte.is_ascii_digit())
}

/// Whether a text is the decimal digits of a number above 0, with no sign and no zero in front.
fn is_numeral(text: &str) -> bool
    ensures { result ≡ is_numeral text.now }
{
    let digits = text.as_bytes();
    match digits {
        [] => false,
        [first, ..] => *first != b'0' && are_digits(digits),
    }
}

/// The number that a text spells, where it lies in this range, which begins above 0.
#[tactic(auto, using(crate::proofs::Numerals::plain_text))]
pub(crate) fn number_in(text: &str, least: u64, most: u64) -> Option<u64>
    ensures { result ≡ number_in least most text.now }
{
    if !is_numeral(text) {
        return None;
    }
    let number = match text.parse::<u64>() {
        Ok(number) => number,
        Err(_) => return None,
    };
    if least <= number && number <= most {
        Some(number)
    } else {
        None
    }
}

/// The address that a text spells, as a number.
fn ip4_in(text: &str) -> Option<u32>
    ensures { result ≡ ip4_of text.now }
{
    match Ip4::parse(text) {
        Some(ip) => Some(ip.0),
        None => None,
    }
}

fn address_and_port(address: &str, port: &str) -> Option<Listen>
    ensures { result ≡ address_and_port address.now port.now }
{
    let ip = ip4_in(address)?;
    let number = number_in(port, 1, 65_535)?;
    Some(Listen {
        ip: Ip4(ip),
        port: number as u16,
    })
}

/// The address and the port that a text spells, as `127.0.0.1:6653`.
pub(crate) fn listen_of(text: &str) -> Option<Listen>
    ensures { result ≡ listen_of text.now }
{
    match text.split_once(':') {
        Some((address, port)) => address_and_port(address, port),
        None => None,
    }
}

/// The value of the option of this name, if it stands there.
pub(crate) fn value_of<'a>(options: &'a [CommandOption], name: &str) -> Option<&'a str>
    ensures { option_map (λ text. text.now) result ≡ value_of name.now options.now }
{
    let option = options.iter().find(|option| option.name.as_str() == name)?;
    Some(option.value.as_str())
}

/// The value of the option of this name, or else this one.
pub(crate) fn value_or<'a>(options: &'a [CommandOption], name: &str, default: &'a str) -> &'a str
    ensures { result.now ≡ unwrap_or (value_of name.now options.now) default.now }
{
    value_of(options, name).unwrap_or(default)
}
