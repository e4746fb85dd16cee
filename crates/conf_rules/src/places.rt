//! Places where a rule of a configuration is broken.

ghost use Rattle.std.specs.Prelude.{◌≡◌, ◌∷◌, [], IfOk, Some, codes};
ghost use Rattle.conf_resolve.specs.InOrder.{dp_site, port_site, router_site};
ghost use Rattle.conf_rules.specs.Places.{fault, under, nth, name_site};

use conf_shape::{ConfCause, ConfFault, RawAcl, RawDp, RawNames, RawPort, RawRouter, path_of};
use net_base::{Items, Names, NoMemory, Text};
use std::alloc::Global;

/// The first place where a rule is broken; `None` where there is none.
pub type Found = Result<Option<ConfFault>, NoMemory>;

/// A rule is broken at a place.
pub fn broken(alloc: Global, cause: ConfCause, site: Names) -> Found
    ensures { IfOk result (λ found. found ≡ Some (fault cause site)) }
{
    let path = path_of(alloc, site.as_slice())?;
    Ok(Some(ConfFault { path, cause }))
}

/// The place under a key.
pub fn under(alloc: Global, mut site: Names, key: &str) -> Result<Names, NoMemory>
    ensures { IfOk result (λ made. made ≡ under site key.now) }
{
    site.push(Text::from_str(alloc, key)?)?;
    Ok(site)
}

/// A place in a list, counted from 0.
pub fn nth(alloc: Global, site: Names, n: usize) -> Result<Names, NoMemory>
    ensures { IfOk result (λ made. made ≡ nth site n) }
{
    let digits = n.to_string(alloc)?;
    under(alloc, site, digits.as_str())
}

fn part_site(alloc: Global, section: &str, key: &Text) -> Result<Names, NoMemory>
    ensures { IfOk result (λ made. made ≡ section.now ∷ key.now ∷ []) }
{
    let site = under(alloc, Items::new(alloc), section)?;
    under(alloc, site, key.as_str())
}

/// The place of a datapath.
pub fn dp_site(alloc: Global, dp: &RawDp) -> Result<Names, NoMemory>
    ensures { IfOk result (λ made. made ≡ dp_site dp.now) }
{
    part_site(alloc, "dps", &dp.names.key)
}

/// The place of an interface.
pub fn port_site(alloc: Global, dp: &RawDp, port: &RawPort) -> Result<Names, NoMemory>
    ensures { IfOk result (λ made. made ≡ port_site dp.now port.now) }
{
    let site = under(alloc, dp_site(alloc, dp)?, "interfaces")?;
    under(alloc, site, port.names.key.as_str())
}

/// The place under a key of an interface.
pub fn under_port(alloc: Global, dp: &RawDp, port: &RawPort, key: &str) -> Result<Names, NoMemory>
    ensures { IfOk result (λ made. made ≡ under (port_site dp.now port.now) key.now) }
{
    under(alloc, port_site(alloc, dp, port)?, key)
}

/// The place of a router.
pub fn router_site(alloc: Global, router: &RawRouter) -> Result<Names, NoMemory>
    ensures { IfOk result (λ made. made ≡ router_site router.now) }
{
    part_site(alloc, "routers", &router.name)
}

/// The place of an ACL.
pub fn acl_site(alloc: Global, acl: &RawAcl) -> Result<Names, NoMemory>
    ensures { IfOk result (λ made. made ≡ codes "acls" ∷ acl.now.name ∷ []) }
{
    part_site(alloc, "acls", &acl.name)
}

/// Where a name is written: under its key, or as the key of its map.
pub fn name_site(alloc: Global, site: Names, names: &RawNames) -> Result<Names, NoMemory>
    ensures { IfOk result (λ made. made ≡ name_site site names.now) }
{
    if names.has_name {
        under(alloc, site, "name")
    } else {
        Ok(site)
    }
}
