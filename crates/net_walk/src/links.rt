//! Links that are up, by their ends.

ghost use Rattle.std.specs.Prelude.{◌≡◌, ◌==◌, ◌&&◌};
ghost use Rattle.std.specs.List.{list_any};
ghost use Rattle.conf_types.specs.Membership.{is_stack};
ghost use Rattle.net_walk.specs.Arrivals.{is_at, other_end, far_end, is_stack_port};

use conf_types::{Conf, Port, StackEnd};
use net_base::{DpId, StackLink};

fn is_at(link: &StackLink, dp: DpId, port: u32) -> bool
    ensures { result ≡ is_at dp port link.now }
{
    link.a == dp && link.a_port.get() == port || link.b == dp && link.b_port.get() == port
}

fn other_end(link: &StackLink, dp: DpId, port: u32) -> StackEnd
    ensures { result ≡ other_end dp port link.now }
{
    if link.a == dp && link.a_port.get() == port {
        StackEnd {
            dp: link.b,
            port: link.b_port,
        }
    } else {
        StackEnd {
            dp: link.a,
            port: link.a_port,
        }
    }
}

/// Where a link leads that begins at a port; `None` exactly where none of these does.
pub(crate) fn far_end(links: &[StackLink], dp: DpId, port: u32) -> Option<StackEnd>
    ensures { result ≡ far_end links.now dp port }
{
    match links.iter().find(|link| is_at(link, dp, port)) {
        Some(link) => Some(other_end(link, dp, port)),
        None => None,
    }
}

fn has_stack_port(ports: &[Port], port: u32) -> bool
    ensures { result ≡ list_any (λ q. q.no == port && is_stack q) ports.now }
{
    ports
        .iter()
        .any(|other| other.no.get() == port && other.is_stack())
}

/// Whether the port is an enabled end of a stack link, up or not.
pub(crate) fn is_stack_port(conf: &Conf, dp: DpId, port: u32) -> bool
    ensures { result ≡ is_stack_port conf.now dp port }
{
    match conf.dp(dp) {
        Some(dp) => has_stack_port(dp.ports.as_slice(), port),
        None => false,
    }
}
