//! Calls of a hub, as values.

ghost use Rattle.law_calls.specs.Hubs.{IsMade};
ghost use Rattle.law_calls.specs.Runs.{Run};

use fg_outside::Hub;

/// A call of a hub.
#[derive(Clone, Copy)]
pub enum HubCall<'a> {
    /// `turn`
    Turn,
    /// `say`
    Say { conn: u32, piece: &'a [u8] },
    /// `close`
    Close(u32),
}

/// Makes a call, whatever its answer is.
pub fn make<H: Hub>(hub: &mut H, call: &HubCall<'_>)
    ensures { IsMade H.Hub hub.old call.now hub.new }
{
    match *call {
        HubCall::Turn => {
            let _turn = hub.turn();
        }
        HubCall::Say { conn, piece } => {
            let _said = hub.say(conn, piece);
        }
        HubCall::Close(conn) => hub.close(conn),
    }
}

/// Makes calls one behind the other, whatever each of them answers.
pub fn make_all<H: Hub>(hub: &mut H, calls: &[HubCall<'_>])
    ensures { Run (IsMade H.Hub) hub.old calls.now hub.new }
{
    for call in calls {
        make(hub, call);
    }
}
