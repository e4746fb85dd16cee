ghost use Rattle.std.specs.Prelude.{◌≡◌};
ghost use Rattle.bgp_speaker.specs.Same.{is_same, are_same};

use bgp_routes::BgpRoute;

fn is_same(a: &BgpRoute, b: &BgpRoute) -> bool
    ensures { result ≡ is_same a.now b.now }
{
    a.dst.ip.0 == b.dst.ip.0 && a.dst.len == b.dst.len && a.gw.0 == b.gw.0
}

/// Whether these are the same routes, in one order.
pub(crate) fn are_same(a: &[BgpRoute], b: &[BgpRoute]) -> bool
    ensures { result ≡ are_same a.now b.now }
{
    match a {
        [] => b.is_empty(),
        [route, routes @ ..] => match b {
            [] => false,
            [other, others @ ..] => is_same(route, other) && are_same(routes, others),
        },
    }
}
