//! Where a frame is to come in.

ghost use Rattle.std.specs.Prelude.{◌≡◌};
ghost use Rattle.std.specs.Option.{option_copied};
ghost use Rattle.trace_story.specs.Entry.{dp_named, missing_in};

use conf_types::{Conf, Dp};
use net_base::{PortNo, Text};

/// What isn't there of where a frame is to come in.
#[derive(Clone, Copy, Debug, PartialEq, Eq)]
pub enum Missing {
    /// The configuration has no datapath of the name.
    Dp,
    /// The datapath has no interface of the number.
    Port,
}

/// The datapath of a name; `None` exactly where there is none.
pub(crate) fn dp_named<'a>(dps: &'a [Dp], name: &str) -> Option<&'a Dp>
    ensures { option_copied result ≡ dp_named dps.now name.now }
{
    dps.iter().find(|dp| dp.name.as_str() == name)
}

/// What isn't there of the interface with a number of the datapath with a name; `None` exactly where the interface is
/// there.
pub fn missing_in(conf: &Conf, dp: &Text, port: PortNo) -> Option<Missing>
    ensures { result ≡ missing_in conf.now dp.now port }
{
    let Some(dp) = dp_named(conf.dps().as_slice(), dp.as_str()) else {
        return Some(Missing::Dp);
    };
    if dp.port(port).is_some() {
        None
    } else {
        Some(Missing::Port)
    }
}
