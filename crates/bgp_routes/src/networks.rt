ghost use Rattle.std.specs.Prelude.{◌≡◌};
ghost use Rattle.bgp_routes.specs.Networks.{cleared, is_before, is_same};

use net_base::{Ip4, Net4};

/// The network with its host bits cleared.
pub(crate) fn cleared(net: &Net4) -> Net4
    ensures { result ≡ cleared net.now }
{
    let ip = u64::from(net.ip.0);
    let size = 1_u64 << (32 - net.len);
    Net4 {
        ip: Ip4((ip / size * size) as u32),
        len: net.len,
    }
}

/// Whether a network stands before another: by its address, and then by its length.
pub(crate) fn is_before(a: &Net4, b: &Net4) -> bool
    ensures { result ≡ is_before a.now b.now }
{
    a.ip.0 < b.ip.0 || a.ip.0 == b.ip.0 && a.len < b.len
}

/// Whether two networks have one address and one length.
pub(crate) fn is_same(a: &Net4, b: &Net4) -> bool
    ensures { result ≡ is_same a.now b.now }
{
    a.ip.0 == b.ip.0 && a.len == b.len
}
