ghost use Rattle.std.specs.Prelude.{◌≡◌, ◌⊎◌, ℕ, ◌+◌, ◌-◌, ◌^◌, ◌<◌, ◌≤◌, List, length, Some, None, OnOk, OnErr, IfOk, IsErrOf};
ghost use Rattle.std.specs.Option.{option_map};
ghost use Rattle.fg_outside.specs.Counts.{Rose};
ghost use Rattle.fg_outside.specs.Left.{IsAtEnd};
ghost use Rattle.fg_outside.specs.Steps.{Went};
ghost use Rattle.recording.specs.declared.refused.RecordCause.{RecordCause};
ghost use Rattle.recording.specs.HeaderLimit.{header_limit};
ghost use Rattle.recording.specs.HeaderIs.{HeaderIs};
ghost use Rattle.recording.specs.Kinds.{kind_of};
ghost use Rattle.recording.specs.Layout.{moment_in, kind_in, conn_in, len_in};
ghost use Rattle.recording.specs.Refused.{header_refusal};

use crate::conns::Conns;
use crate::grow::{GrowRefused, grow};
use crate::header::{HEADER_LEN, Header, read_header};
use crate::record::Record;
use crate::refused::{RecordCause, RecordRefused};
use fg_outside::Source;
use net_base::{Bytes, NoMemory};
use std::alloc::Global;
use std::mem;

/// Why no record was read.
#[derive(Clone, Copy, Debug, PartialEq, Eq)]
pub enum Stop {
    /// The recording ends here.
    End,
    /// The record is refused.
    Refused(RecordCause),
    /// A read failed. The next call goes on there.
    Failed,
    /// Memory ran out. The reader is of no more use.
    Memory,
}

impl From<GrowRefused> for Stop {
    ghost use Rattle.recording.specs.Stops.{stop_of};

    ghost from_gives = { λ refused stop. stop ≡ stop_of refused };

    fn from(refused: GrowRefused) -> Stop {
        match refused {
            GrowRefused::Failed => Stop::Failed,
            GrowRefused::Memory => Stop::Memory,
        }
    }
}

impl From<NoMemory> for Stop {
    ghost use Rattle.recording.specs.declared.reader.Stop.TheVariants.{Memory};

    ghost from_gives = { λ _ stop. stop ≡ Memory };

    fn from(_: NoMemory) -> Stop {
        Stop::Memory
    }
}

/// Reads a recording record by record, and never past a record.
#[derive(Debug, Drop)]
pub struct Reader<S> {
    source: S,
    alloc: Global,
    // What was taken of the record that is read next.
    head: Bytes,
    body: Bytes,
    count: u64,
    moment: u64,
    opened: Conns,
    refused: Option<RecordCause>,
    ghost numbered: { count + 1 ≤ 2 ^ 64 - 1 },
    ghost head_fits: { length head ≤ header_limit count },
    ghost in_order: { 0 < length body → length head ≡ 17 },
    ghost begun_well: { 0 < length body → header_refusal (record { count = count; moment = moment; opened = opened }) head (kind_of (kind_in head)) ≡ None },
    ghost body_fits: { length body ≤ len_in head },
}

impl<S: Source> Reader<S> {
    ghost use Rattle.recording.specs.Recording.{first_place};
    ghost use Rattle.recording.specs.Reader.{place_of, source_of, part_of, left_of, refused_of, Takes, Ends, Refuses};

    /// A reader of what the source has left.
    pub fn new(alloc: Global, source: S) -> Reader<S>
        ensures source { source_of result ≡ source }
        ensures left { left_of S.left result ≡ S.left source }
        ensures place { place_of result ≡ first_place }
        ensures refused { refused_of result ≡ None }
    {
        Reader {
            source,
            alloc,
            head: Bytes::new(alloc),
            body: Bytes::new(alloc),
            count: 0,
            moment: 0,
            opened: Conns::new(alloc),
            refused: None,
        }
    }

    /// The source.
    pub fn into_source(self) -> S
        ensures { result ≡ source_of self }
    {
        self.source
    }

    /// The last moment.
    pub fn moment(&self) -> u64
        ensures { result ≡ (place_of self.now).moment }
    {
        self.moment
    }

    /// The next record, where it is refused.
    pub fn refused(&self) -> Option<RecordRefused>
        ensures { result ≡ option_map (λ cause. record { number = (place_of self.now).count + 1; cause = cause }) (refused_of self.now) }
    {
        let cause = self.refused?;
        Some(RecordRefused {
            number: self.count + 1,
            cause,
        })
    }

    // Refuses the next record.
    fn refuse(&mut self, cause: RecordCause) -> Stop
        ensures answer { result ≡ Stop.Refused cause }
        ensures refused { refused_of self.new ≡ Some cause }
        ensures source { source_of self.new ≡ source_of self.old }
        ensures head { self.new.head ≡ self.old.head }
        ensures body { self.new.body ≡ self.old.body }
        ensures place { place_of self.new ≡ place_of self.old }
    {
        self.refused = Some(cause);
        Stop::Refused(cause)
    }

    // Reads on in the header of the next record, as far as a fault can stand in it.
    #[tactic(auto, using(fg_outside::proofs::StepLemmas::calls))]
    fn read_head(&mut self) -> Result<(), Stop>
        ensures only { OnErr result (IsErrOf result Stop.Failed ⊎ IsErrOf result Stop.Memory) }
        ensures kept { (IsErrOf result Stop.Memory → ⊥) → left_of S.left self.new ≡ left_of S.left self.old }
        ensures place { place_of self.new ≡ place_of self.old }
        ensures body { self.new.body ≡ self.old.body }
        ensures refused { refused_of self.new ≡ refused_of self.old }
        ensures end { OnOk result (length self.new.head < header_limit self.new.count → IsAtEnd (S.left (source_of self.new))) }
        ensures failed { IsErrOf result Stop.Failed → Rose (S.faults (source_of self.old)) (S.faults (source_of self.new)) }
        ensures no_fault { (IsErrOf result Stop.Failed → ⊥) → S.faults (source_of self.new) ≡ S.faults (source_of self.old) }
        ensures faults { S.faults (source_of self.old) ≤ S.faults (source_of self.new) }
        ensures step { Went S.may (source_of self.old) (source_of self.new) }
    {
        let most = if self.count < u64::MAX - 1 {
            HEADER_LEN
        } else {
            1
        };
        if self.head.len() < most {
            grow(&mut self.source, &mut self.head, most)?;
        }
        Ok(())
    }

    // Reads the header of the next record.
    #[tactic(auto, using(fg_outside::proofs::StepLemmas::calls))]
    fn read_header(&mut self) -> Result<Header, Stop>
        ensures ok { IfOk result (λ header. HeaderIs (place_of self.new) self.new.head header) }
        ensures unrefused { OnOk result (refused_of self.new ≡ None) }
        ensures end { IsErrOf result Stop.End → Ends S.left self.new }
        ensures refuses { (cause : RecordCause) → IsErrOf result (Stop.Refused cause) → refused_of self.old ≡ None → Refuses S.left self.new cause }
        ensures refused { (cause : RecordCause) → IsErrOf result (Stop.Refused cause) → refused_of self.new ≡ Some cause }
        ensures stays { (cause : RecordCause) → refused_of self.old ≡ Some cause → self.new ≡ self.old }

        ensures kept { (IsErrOf result Stop.Memory → ⊥) → left_of S.left self.new ≡ left_of S.left self.old }
        ensures place { place_of self.new ≡ place_of self.old }
        ensures body { self.new.body ≡ self.old.body }
        ensures open { IsErrOf result Stop.Failed → refused_of self.new ≡ None }
        ensures failed { IsErrOf result Stop.Failed → Rose (S.faults (source_of self.old)) (S.faults (source_of self.new)) }
        ensures no_fault { (IsErrOf result Stop.Failed → ⊥) → S.faults (source_of self.new) ≡ S.faults (source_of self.old) }
        ensures faults { S.faults (source_of self.old) ≤ S.faults (source_of self.new) }
        ensures step { Went S.may (source_of self.old) (source_of self.new) }
    {
        if let Some(cause) = self.refused {
            return Err(Stop::Refused(cause));
        }
        self.read_head()?;
        if self.head.is_empty() {
            return Err(Stop::End);
        }
        if self.count >= u64::MAX - 1 {
            return Err(self.refuse(RecordCause::Many));
        }
        if self.head.len() < HEADER_LEN {
            return Err(self.refuse(RecordCause::Cut));
        }
        match read_header(self.head.as_slice(), self.moment, &self.opened) {
            Ok(header) => Ok(header),
            Err(cause) => Err(self.refuse(cause)),
        }
    }

    // Reads on in the bytes of the next record, behind its header.
    fn read_body(&mut self, header: Header) -> Result<(), Stop>
        requires header { HeaderIs (place_of self.old) self.old.head header }
        requires unrefused { refused_of self.old ≡ None }

        ensures ok { OnOk result (length self.new.body ≡ header.len) }
        ensures unrefused { OnOk result (refused_of self.new ≡ None) }
        ensures end { IsErrOf result Stop.End → ⊥ }
        ensures refuses { (cause : RecordCause) → IsErrOf result (Stop.Refused cause) → Refuses S.left self.new cause }
        ensures refused { (cause : RecordCause) → IsErrOf result (Stop.Refused cause) → refused_of self.new ≡ Some cause }

        ensures kept { (IsErrOf result Stop.Memory → ⊥) → left_of S.left self.new ≡ left_of S.left self.old }
        ensures place { place_of self.new ≡ place_of self.old }
        ensures head { self.new.head ≡ self.old.head }
        ensures open { IsErrOf result Stop.Failed → refused_of self.new ≡ None }
        ensures failed { IsErrOf result Stop.Failed → Rose (S.faults (source_of self.old)) (S.faults (source_of self.new)) }
        ensures no_fault { (IsErrOf result Stop.Failed → ⊥) → S.faults (source_of self.new) ≡ S.faults (source_of self.old) }
        ensures faults { S.faults (source_of self.old) ≤ S.faults (source_of self.new) }
        ensures step { Went S.may (source_of self.old) (source_of self.new) }
    {
        let len = header.len as usize;
        grow(&mut self.source, &mut self.body, len)?;
        if self.body.len() < len {
            self.refused = Some(RecordCause::Cut);
            return Err(Stop::Refused(RecordCause::Cut));
        }
        Ok(())
    }

    // Takes the next record, all bytes of which are there.
    fn take_record(&mut self, header: Header) -> Result<Record, Stop>
        requires header { HeaderIs (place_of self.old) self.old.head header }
        requires whole { length self.old.body ≡ header.len }
        requires unrefused { refused_of self.old ≡ None }

        ensures ok { IfOk result (λ r. Takes S.left self.old r self.new) }
        ensures only { OnErr result (IsErrOf result Stop.Memory) }
        ensures source { source_of self.new ≡ source_of self.old }
    {
        self.opened.go_on(header.kind, header.conn)?;
        let body = mem::replace(&mut self.body, Bytes::new(self.alloc));
        self.head.truncate(0);
        self.count += 1;
        self.moment = header.moment;
        Ok(Record {
            moment: header.moment,
            kind: header.kind,
            conn: header.conn,
            body,
        })
    }

    /// Reads the next record, and no byte behind it. A refused record is read as far as its fault,
    /// and refused at each later call too. After `Failed` the next call goes on where this one
    /// stopped.
    #[tactic(auto, using(fg_outside::proofs::StepLemmas::calls))]
    pub fn next(&mut self) -> Result<Record, Stop>
        ensures ok { IfOk result (λ r. Takes S.left self.old r self.new) }
        ensures end { IsErrOf result Stop.End → Ends S.left self.new }
        ensures refuses { (cause : RecordCause) → IsErrOf result (Stop.Refused cause) → refused_of self.old ≡ None → Refuses S.left self.new cause }
        ensures refused { (cause : RecordCause) → IsErrOf result (Stop.Refused cause) → refused_of self.new ≡ Some cause }
        ensures stays { (cause : RecordCause) → refused_of self.old ≡ Some cause → self.new ≡ self.old }

        ensures kept { OnErr result ((IsErrOf result Stop.Memory → ⊥) → left_of S.left self.new ≡ left_of S.left self.old) }
        ensures place { OnErr result ((IsErrOf result Stop.Memory → ⊥) → place_of self.new ≡ place_of self.old) }
        ensures open { IsErrOf result Stop.Failed → refused_of self.new ≡ None }
        ensures failed { IsErrOf result Stop.Failed → Rose (S.faults (source_of self.old)) (S.faults (source_of self.new)) }
        ensures no_fault { (IsErrOf result Stop.Failed → ⊥) → S.faults (source_of self.new) ≡ S.faults (source_of self.old) }
        ensures faults { S.faults (source_of self.old) ≤ S.faults (source_of self.new) }
        ensures step { Went S.may (source_of self.old) (source_of self.new) }
    {
        let header = self.read_header()?;
        self.read_body(header)?;
        self.take_record(header)
    }
}
