ghost use Rattle.std.specs.Prelude.{◌≡◌, ◌<◌, length, Option, List, IfSome, IfNone};
ghost use Rattle.bgp_messages.specs.Grammar.{Begins, BeginsNone, Joined, Parsed};
ghost use Rattle.bgp_messages.specs.Opens.{Parameter, SpellsParameter, parameter_in, are_capabilities};

use crate::number::u8_at;

/// The type of capabilities among optional parameters (RFC 5492, 4).
const CAPABILITIES: u8 = 2;

/// How many bytes the parameter at the front takes.
fn first_len(bytes: &[u8]) -> Option<usize>
    requires { 0 < length bytes.now }
    ensures found { IfSome result (λ n. Begins (SpellsParameter (parameter_in n bytes.now)) n bytes.now) }
    ensures none { IfNone result (BeginsNone SpellsParameter bytes.now) }
{
    if bytes.len() < 2 {
        return None;
    }
    let len = 2 + usize::from(u8_at(bytes, 1));
    if bytes.len() < len { None } else { Some(len) }
}

/// Whether all parameters are capabilities; `None` exactly where their lengths disagree with the end
/// of the bytes.
pub(crate) fn are_capabilities(bytes: &[u8]) -> Option<bool>
    ensures { (parameters : Option (List Parameter)) × Parsed (Joined SpellsParameter) bytes.now parameters × (result ≡ are_capabilities parameters) }
{
    let mut are = true;
    let mut rest = bytes;
    while !rest.is_empty() {
        let len = first_len(rest)?;
        are = are && u8_at(rest, 0) == CAPABILITIES;
        let (_, after) = rest.split_at(len);
        rest = after;
    }
    Some(are)
}
