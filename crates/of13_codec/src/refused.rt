use of_wire::PartFault;

/// Why a frame was not decoded.
#[derive(Clone, Copy, Debug, PartialEq, Eq)]
pub enum WireRefused {
    /// A version that this message can't have: 4, or at least 1 in a HELLO.
    Version,
    /// The header's length isn't that of the frame, or the frame is shorter than a header.
    Length,
    /// The body isn't that of a message of this type.
    Body(PartFault),
    /// Memory ran out.
    Memory,
}
