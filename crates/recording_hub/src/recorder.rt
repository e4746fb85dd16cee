ghost use Rattle.std.specs.Prelude.{◌≡◌, ◌≤◌, false, OnOk, OnErr};
ghost use Rattle.recording.specs.Kinds.{is_length};
ghost use Rattle.recording.specs.Recording.{first_place};
ghost use Rattle.recording_hub.specs.Recorded.{held_text, record_of};
ghost use Rattle.recording_hub.specs.Recorder.{place_of, is_broken, may_follow, Puts, Rests, NotesClosing};

use fg_outside::{Happening, Sink, write_all};
use net_base::{Bytes, NoMemory};
use recording::{Conns, RecordKind, put_read};
use std::alloc::Global;

/// How many records a recording has at most.
const MOST_RECORDS: u64 = u64::MAX - 1;

/// A recording that is being written, record by record.
#[derive(Debug, Drop)]
pub struct Recorder<S> {
    sink: S,
    // How many records were written.
    count: u64,
    // The moment of the last one, in milliseconds; 0 before the first.
    moment: u64,
    // The connections that are open in it.
    opened: Conns,
    // The bytes of one record.
    bytes: Bytes,
    // Whether a record has no place behind the others, or wasn't written whole.
    broken: bool,
}

/// A text that a record can hold: this one, or one byte 0 in place of a longer one.
fn held_text(text: &[u8]) -> &[u8]
    ensures { result.now ≡ held_text text.now }
{
    if text.len() > RecordKind::MOST_BYTES as usize {
        &[0]
    } else {
        text
    }
}

/// Whether a record of this kind may have so many bytes.
fn may_have(kind: RecordKind, len: usize) -> bool
    ensures { result ≡ is_length kind len }
{
    match u32::try_from(len) {
        Ok(len) => kind.may_have(len),
        Err(_) => false,
    }
}

impl<S: Sink> Recorder<S> {
    /// A recording with no record yet, behind what the sink has taken.
    pub fn new(alloc: Global, sink: S) -> Recorder<S>
        ensures sink { result.sink ≡ sink }
        ensures place { place_of result ≡ first_place }
        ensures whole { is_broken result ≡ false }
    {
        Recorder {
            sink,
            count: 0,
            moment: 0,
            opened: Conns::new(alloc),
            bytes: Bytes::new(alloc),
            broken: false,
        }
    }

    /// Whether a record has no place behind the others, or wasn't written whole.
    pub fn is_broken(&self) -> bool
        ensures { result ≡ is_broken self.now }
    {
        self.broken
    }

    /// The sink.
    pub fn into_sink(self) -> S
        ensures { result ≡ self.sink }
    {
        self.sink
    }

    // Whether a record with these parts may stand behind the others.
    fn may_follow(&self, moment: u64, kind: RecordKind, conn: u32, body: &[u8]) -> bool
        ensures { result ≡ may_follow (place_of self.now) (record { moment = moment; kind = kind; conn = conn; body = body.now }) }
    {
        self.count < MOST_RECORDS
            && may_have(kind, body.len())
            && self.moment <= moment
            && self.opened.may_be_named(kind, conn)
    }

    // Writes a record behind the others. After `NoMemory` nothing was written.
    fn put(&mut self, moment: u64, kind: RecordKind, conn: u32, body: &[u8]) -> Result<(), NoMemory>
        requires { is_broken self.old ≡ false }
        ensures ok { OnOk result (Puts S.wrote S.faults self.old (record { moment = moment; kind = kind; conn = conn; body = body.now }) self.new) }
        ensures err { OnErr result (Rests S.wrote self.old self.new) }
        ensures faults { S.faults self.old.sink ≤ S.faults self.new.sink }
    {
        if !self.may_follow(moment, kind, conn, body) {
            self.broken = true;
            return Ok(());
        }
        self.bytes.truncate(0);
        put_read(&mut self.bytes, moment, kind, conn, body)?;
        self.opened.go_on(kind, conn)?;
        self.count += 1;
        self.moment = moment;
        self.broken = write_all(&mut self.sink, self.bytes.as_slice()).is_err();
        Ok(())
    }

    /// Writes the record of a happening. After `NoMemory` nothing was written.
    pub fn note(&mut self, it: &Happening) -> Result<(), NoMemory>
        requires { is_broken self.old ≡ false }
        ensures ok { OnOk result (Puts S.wrote S.faults self.old (record_of (place_of self.old).moment it.now) self.new) }
        ensures err { OnErr result (Rests S.wrote self.old self.new) }
        ensures faults { S.faults self.old.sink ≤ S.faults self.new.sink }
    {
        let last = self.moment;
        match it {
            Happening::Opened(conn) => self.put(last, RecordKind::Open, *conn, &[]),
            Happening::Heard { conn, piece } => {
                self.put(last, RecordKind::Bytes, *conn, piece.as_slice())
            }
            Happening::Closed { conn, .. } => self.put(last, RecordKind::Close, *conn, &[]),
            Happening::Moment(moment) => self.put(*moment, RecordKind::Moment, 0, &[]),
            Happening::Reload(text) => {
                self.put(last, RecordKind::Reload, 0, held_text(text.as_slice()))
            }
        }
    }

    /// Writes that a connection was closed, where it is open in the recording. After `NoMemory` nothing was
    /// written.
    pub fn note_closing(&mut self, conn: u32) -> Result<(), NoMemory>
        ensures ok { OnOk result (NotesClosing S.wrote S.faults self.old conn self.new) }
        ensures err { OnErr result (Rests S.wrote self.old self.new) }
        ensures faults { S.faults self.old.sink ≤ S.faults self.new.sink }
    {
        if self.broken || !self.opened.has(conn) {
            return Ok(());
        }
        self.put(self.moment, RecordKind::Close, conn, &[])
    }
}
