ghost use Rattle.std.specs.Prelude.{◌≡◌};
ghost use Rattle.recording.specs.Kinds.{cause_number, cause_name};

/// Why a record is refused. The causes are tested in the order: Many, Cut in the header, Kind,
/// Length, Falls, Conn, Cut in the bytes.
#[derive(Clone, Copy, Debug, PartialEq, Eq)]
pub enum RecordCause {
    /// The recording ends inside the record.
    Cut,
    /// The kind isn't one that is read.
    Kind,
    /// A record of this kind can't have so many bytes.
    Length,
    /// The moment is below the last one.
    Falls,
    /// The connection is open and is opened again, isn't open and is spoken of, or isn't 0.
    Conn,
    /// It would be the record with the number 2^64 - 1.
    Many,
}

impl RecordCause {
    /// Its number, 1 to 6.
    pub fn number(self) -> u8
        ensures { result ≡ cause_number self }
    {
        match self {
            RecordCause::Cut => 1,
            RecordCause::Kind => 2,
            RecordCause::Length => 3,
            RecordCause::Falls => 4,
            RecordCause::Conn => 5,
            RecordCause::Many => 6,
        }
    }

    /// Its name, as it stands in a line.
    pub fn name(self) -> &'static str
        ensures { result.now ≡ cause_name self }
    {
        match self {
            RecordCause::Cut => "Cut",
            RecordCause::Kind => "Kind",
            RecordCause::Length => "Length",
            RecordCause::Falls => "Falls",
            RecordCause::Conn => "Conn",
            RecordCause::Many => "Many",
        }
    }
}

/// A record that is refused: its number, counted from 1, and the cause.
#[derive(Clone, Copy, Debug, PartialEq, Eq)]
pub struct RecordRefused {
    pub number: u64,
    pub cause: RecordCause,
}
