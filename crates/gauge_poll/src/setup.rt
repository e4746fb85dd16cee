//! The setup of a connection (OpenFlow 1.3, 6.3).

ghost use Rattle.std.specs.Prelude.{◌≡◌, OnOk};
ghost use Rattle.gauge_poll.specs.Monitoring.{introduce, unfit};
ghost use Rattle.gauge_poll.specs.Polls.{Said};
ghost use Rattle.gauge_poll.specs.StandsFor.{Keeps};

use crate::known::Known;
use crate::polling::poll_first;
use conf_types::Conf;
use ctl_life::{replace, take_dp};
use gauge_conf::Watcher;
use net_base::{DpId, NoMemory};
use std::alloc::Global;
use switch_session::Closing;

/// Why a switch that says what it is, is turned away.
pub(crate) fn unfit(conf: &Conf, dp: DpId, auxiliary: u8) -> Option<Closing>
    ensures { result ≡ unfit conf.now dp auxiliary }
{
    if conf.dp(dp).is_none() {
        Some(Closing::UnknownDp)
    } else if auxiliary != 0 {
        Some(Closing::Auxiliary)
    } else {
        None
    }
}

/// A switch said what it is: it is turned away, or its datapath runs from now on, and is polled.
pub(crate) fn introduce(
    alloc: Global,
    known: &mut Known,
    watchers: &[Watcher],
    conn: u32,
    dp: DpId,
    unfit: Option<Closing>,
) -> Result<(), NoMemory>
    ensures { OnOk result ((s : Said) → Keeps known.old s → Keeps known.new (introduce watchers.now conn dp unfit s)) }
{
    match unfit {
        Some(cause) => known.world.close(alloc, cause, conn),
        None => {
            replace(alloc, &mut known.world, dp)?;
            take_dp(alloc, &mut known.world, conn, dp)?;
            poll_first(alloc, known, watchers, dp)
        }
    }
}
