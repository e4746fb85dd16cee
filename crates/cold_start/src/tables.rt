ghost use Rattle.std.specs.Prelude.{◌≡◌, ◌*◌, [], map, length, IfOk, OnOk};
ghost use Rattle.of_match.specs.declared.entry.Command.TheVariants.{Add};
ghost use Rattle.of_match.specs.Settled.{after_all};
ghost use Rattle.conf_types.specs.State.{IsValidState};
ghost use Rattle.packet_way.specs.Present.{state_of};
ghost use Rattle.cold_start.specs.Cold.{cold_at, units_at};
ghost use Rattle.cold_start.specs.Counts.{RisesAtMost, RisesAtLeast};

use crate::plan::plan_entries;
use conf_types::{Conf, Tally};
use net_base::{DpId, NoMemory};
use of_match::{Entries, Tables};
use packet_way::Now;
use std::alloc::Global;

/// What a switch without entries holds once each of these is added.
fn add_all(alloc: Global, entries: Entries) -> Result<Tables, NoMemory>
    ensures { IfOk result (λ tables. tables ≡ after_all [] (map Add entries)) }
{
    let mut tables = Tables::new(alloc);
    for entry in entries.into_vec() {
        tables.add(entry)?;
    }
    Ok(tables)
}

/// The cold start of a datapath: all its entries in key order, no two with one key; none where the
/// configuration has no such datapath. For each of its units at least one unit of work is counted where
/// they are made, and at most three.
pub fn cold<T: Tally>(
    alloc: Global,
    conf: &Conf,
    now: &Now,
    dp: DpId,
    units: &mut T,
) -> Result<Tables, NoMemory>
    requires { IsValidState conf.now (state_of now.now) }
    ensures tables { IfOk result (λ made. made ≡ cold_at conf.now (state_of now.now) dp) }
    ensures most { RisesAtMost (3 * length (units_at conf.now (state_of now.now) dp)) (T.count units.old) (T.count units.new) }
    ensures least { OnOk result (RisesAtLeast (length (units_at conf.now (state_of now.now) dp)) (T.count units.old) (T.count units.new)) }
{
    let Some(dp) = conf.dp(dp) else {
        return Ok(Tables::new(alloc));
    };
    let all = plan_entries(alloc, conf, now, dp, units)?;
    add_all(alloc, all)
}
