//! Which datapaths hold what they are to hold.

ghost use Rattle.std.specs.Prelude.{◌≡◌, ◌&&◌, not};
ghost use Rattle.std.specs.List.{find};
ghost use Rattle.std.specs.Option.{option_copied};
ghost use Rattle.conf_types.specs.State.{is_running};
ghost use Rattle.trace_story.specs.Ready.{is_joined, is_ready_in};

use conf_types::Dp;
use ctl_core::Controller;
use net_base::DpId;
use stack_paths::Paths;

fn runs(running: &[DpId], id: DpId) -> bool
    ensures { result ≡ is_running running.now id }
{
    running.iter().any(|other| *other == id)
}

/// Whether a datapath is one of these, which run, and no barrier is outstanding for it.
pub(crate) fn is_ready(core: &Controller, running: &[DpId], id: DpId) -> bool
    ensures { result ≡ is_ready_in core.now running.now id }
{
    runs(running, id) && !core.waits(id)
}

/// Whether links that are up join two datapaths, or they are one.
fn is_joined(paths: &Paths, from: DpId, to: DpId) -> bool
    ensures { result ≡ is_joined paths.now from to }
{
    from == to || paths.next_hop(from, to).is_some()
}

/// The first of these datapaths that links join to one, or that is it, and that isn't ready.
pub(crate) fn find_unready<'a>(
    core: &Controller,
    running: &[DpId],
    paths: &Paths,
    from: DpId,
    dps: &'a [Dp],
) -> Option<&'a Dp>
    ensures { option_copied result ≡ find (λ d. is_joined paths.now from d.id && not (is_ready_in core.now running.now d.id)) dps.now }
{
    dps.iter().find(|dp| is_joined(paths, from, dp.id) && !is_ready(core, running, dp.id))
}
