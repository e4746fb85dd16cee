ghost use Rattle.std.specs.Prelude.{◌≡◌, ◌≤◌, ℕ, List, IsErrOf};
ghost use Rattle.fg_outside.specs.Counts.{Rose};
ghost use Rattle.faucet_top.specs.Answer.{Load, planned};
ghost use Rattle.faucet_top.specs.Given.{Loads};

use crate::units::Units;
use conf_gather::LoadRefused;
use conf_load::load;
use fg_outside::Files;
use net_base::Bytes;
use opening_batch::opening_batch;
use std::alloc::Global;

/// The opening batch for a datapath of a configuration file; `None` where the configuration has no such
/// datapath.
pub fn make_plan<F: Files>(
    alloc: Global,
    files: &mut F,
    config: &str,
    dp: &str,
) -> Result<Option<Bytes>, LoadRefused>
    ensures made { (made : Load)
        × Loads (F.contents files.old) (Rose (F.absences files.old) (F.absences files.new)) (Rose (F.faults files.old) (F.faults files.new)) (F.refused files.new) config.now made
        × (result ≡ planned dp.now made) }
    ensures no_read_fault { ((file : List ℕ) → IsErrOf result (LoadRefused.Read file) → ⊥) → F.faults files.new ≡ F.faults files.old }

    ensures contents { F.contents files.new ≡ F.contents files.old }
    ensures faults { F.faults files.old ≤ F.faults files.new }
    ensures absences { F.absences files.old ≤ F.absences files.new }
{
    let conf = load(alloc, files, config)?;
    Ok(opening_batch(alloc, &conf, dp, &mut Units::new())?)
}
