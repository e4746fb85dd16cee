use net_base::{Items, Text};
use of13_codec::Message;
use switch_session::Closing;

/// What a controller says.
#[derive(Debug, Drop)]
pub enum Said {
    /// A message on a connection, with its transaction id.
    Message {
        conn: u32,
        message: Message,
        xid: u32,
    },
    /// It closes a connection.
    Closing {
        conn: u32,
        cause: Closing,
    },
    /// A line on standard error, without its end.
    Line(Text),
}

/// What a controller says, in order.
pub type Saids = Items<Said>;
