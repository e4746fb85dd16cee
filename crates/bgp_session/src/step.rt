ghost use Rattle.std.specs.Prelude.{◌≡◌};
ghost use Rattle.bgp_session.specs.Sessions.{said_of};

use bgp_messages::{Fault, Notification, Said};

/// What an event leads to, beside the state.
#[derive(Clone, Copy, Debug, PartialEq, Eq)]
pub enum Step {
    /// Nothing is said, and the session stays as open as it was.
    Nothing,
    /// A message is said.
    Say(Said),
    /// A NOTIFICATION of this is said, and the session is over.
    Refuse(Fault),
    /// A NOTIFICATION was heard, and the session is over.
    Told(Notification),
}

impl Step {
    /// The message that is said, if any.
    pub fn said(&self) -> Option<Said>
        ensures { result ≡ said_of self.now }
    {
        match self {
            Step::Nothing | Step::Told(_) => None,
            Step::Say(said) => Some(*said),
            Step::Refuse(fault) => Some(Said::Notification(*fault)),
        }
    }
}
