//! Whether a host may be learned where it is heard.

ghost use Rattle.std.specs.Prelude.{◌≡◌};
ghost use Rattle.host_learn.specs.Learning.{is_host, takes_in};

use conf_types::{Conf, HostRec};

fn is_taken_in(conf: &Conf, host: &HostRec) -> bool
    ensures { result ≡ takes_in conf.now host.now }
{
    match conf.port(host.dp, host.port) {
        Some(port) => port.is_accepting() && port.is_edge_member(host.vid),
        None => false,
    }
}

/// Whether a host may be learned where it is heard, as far as the configuration says.
pub(crate) fn is_host(conf: &Conf, host: &HostRec) -> bool
    ensures { result ≡ is_host conf.now host.now }
{
    is_taken_in(conf, host) && !host.mac.is_group() && !conf.is_gateway_address(host.mac)
}
