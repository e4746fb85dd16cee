ghost use Rattle.std.specs.Prelude.{◌≡◌, ◌<◌, length, IfSome, IfNone, IfOk};
ghost use Rattle.bgp_messages.specs.Grammar.{Begins, BeginsNone, Parsed};
ghost use Rattle.bgp_messages.specs.Prefixes.{octets, SpellsPrefix, SpellsPrefixes};

use crate::number::{address_of, u8_at};
use net_base::{Ip4, Items, Net4, NoMemory};
use std::alloc::Global;

/// A list of networks. Their host bits may be anything.
pub type Prefixes = Items<Net4>;

/// The prefix at the front (RFC 4271, 4.3), and how many bytes it takes.
fn first_prefix(bytes: &[u8]) -> Option<(Net4, usize)>
    requires { 0 < length bytes.now }
    ensures found { IfSome result (λ x. Begins (SpellsPrefix x.0) x.1 bytes.now) }
    ensures none { IfNone result (BeginsNone SpellsPrefix bytes.now) }
{
    let len = u8_at(bytes, 0);
    let size = 1 + (usize::from(len) + 7) / 8;
    if len > 32 || bytes.len() < size {
        return None;
    }
    let (front, _) = bytes.split_at(size);
    let (_, content) = front.split_at(1);
    let ip = Ip4(address_of(content));
    Some((Net4 { ip, len }, size))
}

/// The prefixes that the bytes spell; `None` exactly where they spell none, since a length is above
/// 32 bits or passes the end.
pub(crate) fn read_prefixes(alloc: Global, bytes: &[u8]) -> Result<Option<Prefixes>, NoMemory>
    ensures { IfOk result (λ nets. Parsed SpellsPrefixes bytes.now nets) }
{
    let mut nets = Prefixes::new(alloc);
    let mut rest = bytes;
    while !rest.is_empty() {
        let Some((net, len)) = first_prefix(rest) else {
            return Ok(None);
        };
        nets.push(net)?;
        let (_, after) = rest.split_at(len);
        rest = after;
    }
    Ok(Some(nets))
}
