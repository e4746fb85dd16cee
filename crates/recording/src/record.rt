use crate::kind::RecordKind;
use net_base::Bytes;

/// A record that was read: the moment in milliseconds, the kind, the connection (0 where the kind
/// has none), and the bytes.
#[derive(Debug, Drop)]
pub struct Record {
    pub moment: u64,
    pub kind: RecordKind,
    pub conn: u32,
    pub body: Bytes,
}
