ghost use Rattle.std.specs.Prelude.{◌≡◌};
ghost use Rattle.switch_session.specs.Connections.{due};

/// After so many milliseconds without a heard byte an echo is asked for.
const ECHO_AFTER: u64 = 20_000;

/// After so many the connection closes.
const SILENT_AFTER: u64 = 60_000;

/// What is due at a moment.
#[derive(Clone, Copy, Debug, PartialEq, Eq)]
pub enum Quiet {
    /// Nothing.
    Well,
    /// An ECHO_REQUEST is to be said (OpenFlow 1.3, 7.5.2).
    Echo,
    /// The connection is to be closed.
    Silent,
}

/// What is due after so many milliseconds of silence, in which an echo was asked for or not.
pub(crate) fn make_due(echoed: bool, silence: u64) -> Quiet
    ensures { result ≡ due echoed silence }
{
    if silence >= SILENT_AFTER {
        Quiet::Silent
    } else if silence >= ECHO_AFTER && !echoed {
        Quiet::Echo
    } else {
        Quiet::Well
    }
}
