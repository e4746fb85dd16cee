ghost use Rattle.std.specs.Prelude.{◌≡◌, ℕ};
ghost use Rattle.recording.specs.Kinds.{number_of, kind_of, is_length, is_moment};

/// The kinds of records that are read.
#[derive(Clone, Copy, Debug, PartialEq, Eq)]
pub enum RecordKind {
    /// A connection opened (kind 1).
    Open,
    /// Bytes came on a connection (2).
    Bytes,
    /// A connection ended (3).
    Close,
    /// A configuration came, as the text of a whole file (4).
    Reload,
    /// The clock showed a moment (5).
    Moment,
}

impl RecordKind {
    /// The most bytes that a record can have.
    pub const MOST_BYTES: u32 = 1_048_576;

    /// The kind with this number; `None` exactly outside 1 to 5.
    pub fn from_number(number: u8) -> Option<RecordKind>
        ensures { result ≡ kind_of number }
    {
        match number {
            1 => Some(RecordKind::Open),
            2 => Some(RecordKind::Bytes),
            3 => Some(RecordKind::Close),
            4 => Some(RecordKind::Reload),
            5 => Some(RecordKind::Moment),
            _ => None,
        }
    }

    /// The number of the kind.
    pub fn number(self) -> u8
        ensures { result ≡ number_of self }
    {
        match self {
            RecordKind::Open => 1,
            RecordKind::Bytes => 2,
            RecordKind::Close => 3,
            RecordKind::Reload => 4,
            RecordKind::Moment => 5,
        }
    }

    /// Whether a record of this kind may have so many bytes.
    pub fn may_have(self, len: u32) -> bool
        ensures { result ≡ is_length self len }
    {
        match self {
            RecordKind::Bytes | RecordKind::Reload => len <= RecordKind::MOST_BYTES,
            RecordKind::Open | RecordKind::Close | RecordKind::Moment => len == 0,
        }
    }

    /// Whether a record of this kind tells the moment and no more.
    pub fn is_moment(self) -> bool
        ensures { result ≡ is_moment self }
    {
        match self {
            RecordKind::Moment => true,
            RecordKind::Open | RecordKind::Bytes | RecordKind::Close | RecordKind::Reload => false,
        }
    }
}
