//! Whether a switch still has to reply to a barrier.

ghost use Rattle.std.specs.Prelude.{◌≡◌, false};
ghost use Rattle.std.specs.Option.{option_map_or};
ghost use Rattle.ctl_core.specs.Waits.{waits, waits_on};

use crate::controller::Controller;
use ctl_world::{Conn, World};
use net_base::DpId;
use switch_session::Stage;

fn waits_on(conn: &Conn) -> bool
    ensures { result ≡ waits_on conn.now }
{
    match conn.session.stage() {
        Stage::Wiping | Stage::Running => conn.session.awaited().is_some(),
        _ => false,
    }
}

fn waits_in(world: &World, dp: DpId) -> bool
    ensures { result ≡ waits world.now dp }
{
    match world.conns.of(dp) {
        Some(conn) => waits_on(conn),
        None => false,
    }
}

impl Controller {
    /// Whether a barrier is outstanding for a datapath: the one behind the wiping of its tables, or the one behind
    /// the last batch. A request for its ports is none. Of a spent controller it is `false`.
    pub fn waits(&self, dp: DpId) -> bool
        ensures { result ≡ option_map_or (λ w. waits w dp) self.now false }
    {
        match self.world() {
            Some(world) => waits_in(world, dp),
            None => false,
        }
    }
}
