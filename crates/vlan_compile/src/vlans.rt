ghost use Rattle.std.specs.Prelude.{◌≡◌};
ghost use Rattle.std.specs.Option.{option_copied};
ghost use Rattle.vlan_compile.specs.Vlans.{native_vlan};

use conf_types::{Conf, Port, Vlan};

/// The VLAN whose packets have no tag at a port.
pub(crate) fn native_vlan<'a>(conf: &'a Conf, port: &Port) -> Option<&'a Vlan>
    ensures { option_copied result ≡ native_vlan conf.now port.now }
{
    match port.native {
        Some(vid) => conf.vlan(vid),
        None => None,
    }
}
