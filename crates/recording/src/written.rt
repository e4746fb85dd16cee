/// An error that a switch reported: its type and code (OpenFlow 1.3, 7.4.4).
#[derive(Clone, Copy, Debug, PartialEq, Eq)]
pub struct SwitchError {
    pub kind: u16,
    pub code: u16,
}
