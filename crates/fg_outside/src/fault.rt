/// A call to the outside failed. Each object counts its faults, and answers this only where the
/// count rose in the call.
#[derive(Clone, Copy, Debug, PartialEq, Eq)]
pub struct Failed;
