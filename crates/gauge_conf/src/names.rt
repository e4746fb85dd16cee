//! Names of dbs and datapaths.

ghost use Rattle.std.specs.Prelude.{◌≡◌, IfOk, OnOk};
ghost use Rattle.std.specs.Option.{option_copied};
ghost use Rattle.std.specs.Str.{bytes_eq};
ghost use Rattle.gauge_conf.specs.Conflicts.{db_named};
ghost use Rattle.gauge_conf.specs.Resolved.{dp_named, is_among, with_new, once};

use crate::raw::RawDb;
use conf_types::Dp;
use net_base::{Names, NoMemory, Text, TryCopy};
use std::alloc::Global;

fn is_called(name: &Text, other: &str) -> bool
    ensures { result ≡ bytes_eq name.now other.now }
{
    name.as_str() == other
}

/// The first db of a name; `None` exactly where there is none.
pub(crate) fn db_named<'a>(dbs: &'a [RawDb], name: &str) -> Option<&'a RawDb>
    ensures { option_copied result ≡ db_named dbs.now name.now }
{
    dbs.iter().find(|db| is_called(&db.name, name))
}

/// The datapath of a name; `None` exactly where there is none.
pub(crate) fn dp_named<'a>(dps: &'a [Dp], name: &str) -> Option<&'a Dp>
    ensures { option_copied result ≡ dp_named dps.now name.now }
{
    dps.iter().find(|dp| is_called(&dp.name, name))
}

fn is_among(names: &[Text], name: &str) -> bool
    ensures { result ≡ is_among names.now name.now }
{
    names.iter().any(|other| is_called(other, name))
}

/// Adds a name that isn't there.
fn push_new(alloc: Global, names: &mut Names, name: &Text) -> Result<(), NoMemory>
    ensures { OnOk result (names.new ≡ with_new names.old name.now) }
{
    if is_among(names.as_slice(), name.as_str()) {
        return Ok(());
    }
    names.push(name.copy(alloc)?)
}

/// Names, each at its first place.
pub(crate) fn once(alloc: Global, names: &[Text]) -> Result<Names, NoMemory>
    ensures { IfOk result (λ made. made ≡ once names.now) }
{
    let mut made = Names::new(alloc);
    for name in names {
        push_new(alloc, &mut made, name)?;
    }
    Ok(made)
}
