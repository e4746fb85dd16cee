//! The setup of a connection (OpenFlow 1.3, 6.3).

ghost use Rattle.std.specs.Prelude.{◌≡◌, OnOk};
ghost use Rattle.ctl_life.specs.Life.{take_dp, replace};
ghost use Rattle.ctl_core.specs.Hearing.{introduce, unfit, wipe};

use conf_types::Conf;
use ctl_life::{replace, take_dp};
use ctl_world::World;
use flow_messages::make_delete_all;
use net_base::{DpId, NoMemory};
use of13_codec::Message;
use std::alloc::Global;
use switch_session::Closing;

/// As many flow tables a switch has at least.
const TABLES: u8 = 9;

/// Why a switch that says what it is, is turned away.
pub(crate) fn unfit(conf: &Conf, dp: DpId, n_tables: u8, auxiliary: u8) -> Option<Closing>
    ensures { result ≡ unfit conf.now dp n_tables auxiliary }
{
    if conf.dp(dp).is_none() {
        Some(Closing::UnknownDp)
    } else if n_tables < TABLES {
        Some(Closing::TooFewTables)
    } else if auxiliary != 0 {
        Some(Closing::Auxiliary)
    } else {
        None
    }
}

/// A switch said what it is: it is turned away, or asked for its ports.
pub(crate) fn introduce(
    alloc: Global,
    world: &mut World,
    conn: u32,
    dp: DpId,
    unfit: Option<Closing>,
) -> Result<(), NoMemory>
    ensures { OnOk result (world.new ≡ introduce conn dp unfit world.old) }
{
    match unfit {
        Some(cause) => world.close(alloc, cause, conn),
        None => {
            replace(alloc, world, dp)?;
            take_dp(alloc, world, conn, dp)?;
            world.ask(conn, Message::PortDescRequest)
        }
    }
}

/// The tables are wiped, with a barrier behind that.
pub(crate) fn wipe(alloc: Global, world: &mut World, conn: u32) -> Result<(), NoMemory>
    ensures { OnOk result (world.new ≡ wipe conn world.old) }
{
    world.say(conn, make_delete_all(alloc))?;
    world.ask(conn, Message::BarrierRequest)
}
