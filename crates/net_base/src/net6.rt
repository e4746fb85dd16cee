ghost use Rattle.std.specs.Prelude.{◌≡◌, ◌-◌, ◌*◌, ◌/◌, ◌%◌, ◌^◌, ◌<◌, ◌≤◌, ◌++◌, ◌↔◌, ℕ, IsTrue, IfSome, IfNone, OnOk, OnErr};
ghost use Rattle.net_base.specs.Address6.{SpellsNet6, net6_text};
ghost use Rattle.net_base.specs.AddressReading.{IsRead};
ghost use Rattle.net_base.specs.Address6Reading.{net6_of};

use crate::address::{cut, number_up_to};
use crate::address6::{Ip6, ip6_of};
use crate::ascii6::put_net6;
use crate::text::Text;
use crate::try_copy::{NoMemory, TryCopy};
use std::alloc::Global;

/// An IPv6 address and the length of its prefix (RFC 4291, 2.3). The host bits are kept.
#[derive(Clone, Copy, Debug, PartialEq, Eq)]
pub struct Net6 {
    pub ip: Ip6,
    pub len: u8,
    pub ghost short: { len ≤ 128 },
}

impl TryCopy for Net6 {
    fn copy(&self, _alloc: Global) -> Result<Net6, NoMemory> {
        Ok(*self)
    }
}

impl Net6 {
    /// The network that a text spells: an address, a slash and a decimal length up to 128 without
    /// leading zeros. `None` exactly where the text spells none.
    pub fn parse(text: &str) -> Option<Net6>
        ensures found { IfSome result (λ net. SpellsNet6 text.now net.ip.0 net.len) }
        ensures none { IfNone result ((ip len : ℕ) → SpellsNet6 text.now ip len → ⊥) }
    {
        match net6_of(text.as_bytes()) {
            Some((ip, len)) => Some(Net6 { ip: Ip6(ip), len }),
            None => None,
        }
    }

    /// Adds the network at the end of a text, the address in its one spelling. After `NoMemory` the
    /// text is as it was.
    pub fn print(&self, out: &mut Text) -> Result<(), NoMemory>
        ensures ok { OnOk result (out.new ≡ out.old ++ net6_text self.now.ip.0 self.now.len) }
        ensures err { OnErr result (out.new ≡ out.old) }
    {
        append_net6(out, self.ip.0, self.len)
    }

    /// Whether an address is of the network: it has the same bits in the prefix.
    #[tactic(auto, using(crate::proofs::Prefixes::all_held))]
    pub fn holds(&self, ip: Ip6) -> bool
        ensures { IsTrue result ↔ (ip.0 / 2 ^ (128 - self.now.len) ≡ self.now.ip.0 / 2 ^ (128 - self.now.len)) }
    {
        let own = self.ip.0;
        if self.len == 0 {
            return true;
        }
        let host_bits = 128 - self.len;
        ip.0 >> host_bits == own >> host_bits
    }

    /// Whether all bits behind the prefix are zero.
    #[tactic(auto, using(crate::proofs::Prefixes::all_host_bits))]
    pub fn is_network(&self) -> bool
        ensures { IsTrue result ↔ (self.now.ip.0 % 2 ^ (128 - self.now.len) ≡ 0) }
    {
        if self.len == 0 {
            return self.ip.0 == 0;
        }
        let size = 1_u128 << (128 - self.len);
        self.ip.0 % size == 0
    }
}

#[tactic(auto, unfolding(crate::specs::Address6Reading::net6_of))]
fn net6_of(bytes: &[u8]) -> Option<(u128, u8)>
    ensures { IsRead result (net6_of bytes.now) }
{
    let (ip, len) = cut(b'/', bytes)?;
    let ip = ip6_of(ip)?;
    let len = number_up_to(128, len)?;
    Some((ip, len))
}

fn append_net6(out: &mut Text, ip: u128, len: u8) -> Result<(), NoMemory>
    ensures ok { OnOk result (out.new ≡ out.old ++ net6_text ip len) }
    ensures err { OnErr result (out.new ≡ out.old) }
{
    let mut buffer = [0; 44];
    let end = put_net6(&mut buffer, ip, len);
    out.append_utf8(&buffer[..end])
}
