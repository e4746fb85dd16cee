ghost use Rattle.std.specs.Prelude.{◌≡◌, ◌≢◌, ◌≤◌, ◌⊎◌, ℕ, List};
ghost use Rattle.fg_outside.specs.Counts.{Rose};
ghost use Rattle.watch_hub.specs.Watch.{IsBegun, files_in, hub_in};
ghost use Rattle.ctl_serve.specs.Served.{ServesTo};

use conf_types::{Conf, Tally};
use ctl_drive::Steered;
use fg_outside::{Files, Hub, Sink};
use hub_drive::drive::drive;
use hub_drive::{Drove, Outlet};
use std::alloc::Global;
use watch_hub::Watch;
use watch_hub::laws::{
    a_watch_is_spent_only_where_it_says_so, a_way_to_want_of_memory_tells_the_watched_story,
    the_counts_of_its_files_stand, what_holds_of_its_calls_holds_of_its_hubs,
};

/// Runs the controller of a configuration on the turns of a hub beside which its file is watched, `most` of them
/// at most, and gives the hub and the files back. What the controller says is said on the hub's connections, and
/// those that it closes are closed there; on `err` stand its lines, each before the next turn is taken. On `out`
/// stands nothing.
pub fn serve<H: Hub, F: Files, O: Sink, E: Sink, T: Tally + Drop>(
    alloc: Global,
    conf: Conf,
    watch: Watch<H, F>,
    most: u64,
    out: &mut O,
    err: &mut E,
    units: T,
) -> (Drove, H, F)
    // The story is that of the hub with the reloads of the looks between, and the hub is told what the controller says of it;
    // where memory ran out, a front of that.
    ensures serves { (name text : List ℕ) (every : ℕ) → IsBegun watch name text every
        → ServesTo H.may F.contents F.faults name text every most conf (hub_in watch) result.1 (files_in watch) result.2 (E.wrote err.old) (E.wrote err.new) result.0 }
    ensures out { O.wrote out.new ≡ O.wrote out.old }

    ensures hub_fault { result.0 ≡ Drove.HubFault → Rose (H.faults (hub_in watch)) (H.faults result.1) }
    ensures no_hub_fault { result.0 ≢ Drove.HubFault → H.faults result.1 ≡ H.faults (hub_in watch) }
    ensures write_fault { result.0 ≡ Drove.WriteFault → Rose (O.faults out.old) (O.faults out.new) ⊎ Rose (E.faults err.old) (E.faults err.new) }
    ensures no_write_fault { result.0 ≢ Drove.WriteFault → (O.faults out.new ≡ O.faults out.old) × (E.faults err.new ≡ E.faults err.old) }

    // Hub and files are handed back.
    ensures hub_faults { H.faults (hub_in watch) ≤ H.faults result.1 }
    ensures files_faults { F.faults (files_in watch) ≤ F.faults result.2 }
    ensures absences { F.absences (files_in watch) ≤ F.absences result.2 }
    ensures out_faults { O.faults out.old ≤ O.faults out.new }
    ensures err_faults { E.faults err.old ≤ E.faults err.new }
{
    a_watch_is_spent_only_where_it_says_so::<H, F>();
    a_way_to_want_of_memory_tells_the_watched_story::<H, F>();
    the_counts_of_its_files_stand::<H, F>();
    what_holds_of_its_calls_holds_of_its_hubs::<H, F>();
    let mut watch = watch;
    let machine = Steered::new(alloc, conf, units);
    let drove = drive(alloc, machine, &mut watch, Outlet::Hub, most, out, err);
    let (hub_after, files_after) = watch.into_parts();
    (drove, hub_after, files_after)
}
