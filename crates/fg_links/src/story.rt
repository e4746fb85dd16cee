use fg_outside::Happening;
use net_base::Bytes;

/// A step in the story of a hub in memory.
#[derive(Debug, Drop)]
pub enum StoryStep {
    /// The hub gave this happening.
    Gave(Happening),
    /// The hub took this piece on an open connection.
    Said { conn: u32, piece: Bytes },
    /// An open connection was closed.
    Closed(u32),
}
