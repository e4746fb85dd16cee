//! The cold starts that a walk has made, kept so that each is made once.

ghost use Rattle.std.specs.Prelude.{◌≡◌};
ghost use Rattle.std.specs.List.{find};
ghost use Rattle.std.specs.Option.{option_copied};
ghost use Rattle.net_walk.specs.Kept.{is_of};

use net_base::{DpId, Items};
use of_match::Tables;

/// The cold start of a datapath.
#[derive(Drop)]
pub(crate) struct Kept {
    pub(crate) dp: DpId,
    pub(crate) tables: Tables,
}

/// Cold starts, of each datapath at most one.
pub(crate) type Keeps = Items<Kept>;

pub(crate) fn find_kept(kept: &[Kept], dp: DpId) -> Option<&Kept>
    ensures { option_copied result ≡ find (is_of dp) kept.now }
{
    kept.iter().find(|one| one.dp == dp)
}
