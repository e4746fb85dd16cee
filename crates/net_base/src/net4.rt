ghost use Rattle.std.specs.Prelude.{◌≡◌, ◌-◌, ◌*◌, ◌/◌, ◌%◌, ◌^◌, ◌<◌, ◌≤◌, ◌++◌, ◌↔◌, ℕ, IsTrue, IfSome, IfNone, OnOk, OnErr};
ghost use Rattle.net_base.specs.Address.{net4_text};
ghost use Rattle.net_base.specs.AddressReading.{IsRead, net4_of};

use crate::address::{Ip4, cut, ip4_of, number_up_to};
use crate::ascii::put_net4;
use crate::text::Text;
use crate::try_copy::{NoMemory, TryCopy};
use std::alloc::Global;

/// An IPv4 address and the length of its prefix (RFC 4632, 3.1). The host bits are kept.
#[derive(Clone, Copy, Debug, PartialEq, Eq)]
pub struct Net4 {
    pub ip: Ip4,
    pub len: u8,
    pub ghost short: { len ≤ 32 },
}

impl TryCopy for Net4 {
    fn copy(&self, _alloc: Global) -> Result<Net4, NoMemory> {
        Ok(*self)
    }
}

impl Net4 {
    /// The network that a text spells: an address, a slash and a decimal length up to 32 without
    /// leading zeros. `None` exactly where the text spells none.
    pub fn parse(text: &str) -> Option<Net4>
        ensures found { IfSome result (λ net. text.now ≡ net4_text net.ip.0 net.len) }
        ensures none { IfNone result ((ip len : ℕ) → ip < 2 ^ 32 → len ≤ 32 → text.now ≡ net4_text ip len → ⊥) }
    {
        match net4_of(text.as_bytes()) {
            Some((ip, len)) => Some(Net4 { ip: Ip4(ip), len }),
            None => None,
        }
    }

    /// Adds the network at the end of a text. After `NoMemory` the text is as it was.
    pub fn print(&self, out: &mut Text) -> Result<(), NoMemory>
        ensures ok { OnOk result (out.new ≡ out.old ++ net4_text self.now.ip.0 self.now.len) }
        ensures err { OnErr result (out.new ≡ out.old) }
    {
        append_net4(out, self.ip.0, self.len)
    }

    /// Whether an address is of the network: it has the same bits in the prefix.
    pub fn holds(&self, ip: Ip4) -> bool
        ensures { IsTrue result ↔ (ip.0 / 2 ^ (32 - self.now.len) ≡ self.now.ip.0 / 2 ^ (32 - self.now.len)) }
    {
        let host_bits = 32 - self.len;
        u64::from(ip.0) >> host_bits == u64::from(self.ip.0) >> host_bits
    }

    /// Whether all bits behind the prefix are zero.
    pub fn is_network(&self) -> bool
        ensures { IsTrue result ↔ (self.now.ip.0 % 2 ^ (32 - self.now.len) ≡ 0) }
    {
        let size = 1_u64 << (32 - self.len);
        u64::from(self.ip.0) % size == 0
    }
}

#[tactic(auto, unfolding(crate::specs::AddressReading::net4_of))]
fn net4_of(bytes: &[u8]) -> Option<(u32, u8)>
    ensures { IsRead result (net4_of bytes.now) }
{
    let (ip, len) = cut(b'/', bytes)?;
    let ip = ip4_of(ip)?;
    let len = number_up_to(32, len)?;
    Some((ip, len))
}

fn append_net4(out: &mut Text, ip: u32, len: u8) -> Result<(), NoMemory>
    ensures ok { OnOk result (out.new ≡ out.old ++ net4_text ip len) }
    ensures err { OnErr result (out.new ≡ out.old) }
{
    let mut buffer = [0; 19];
    let end = put_net4(&mut buffer, ip, len);
    out.append_utf8(&buffer[..end])
}
