ghost use Rattle.std.specs.Prelude.{◌≤◌, ◌<◌, ◌≡◌, ◌≢◌, ◌+◌, ◌-◌, ◌^◌, ℕ, List, min, length, None, Some, Ok, IfOk, IfSome, IfNone, OnSome, OnOk, OnErr, IsSomeAnd};
ghost use Rattle.fg_outside.specs.Contents.{Tells, ReadsAt};
ghost use Rattle.fg_outside.specs.Counts.{Rose, counted};
ghost use Rattle.real_outside.specs.Opened.{last_of, refused_of, name_of, place_of, WentOn};
ghost use Rattle.real_outside.specs.Reads.{ComesTo, IsReady, ReadsOnce, Went};

use crate::opened::OpenAt;
use fg_outside::{Failed, Files, RefusedName};
use net_base::Text;
use std::io::{self, ErrorKind};
use std::{fs, rt};

/// The files of the system. They tell nothing of what they hold, and count their faults and absences.
/// The file that was read last stays open, so that a pipe can be read to its end.
#[derive(Drop)]
pub struct RealFiles<'a, R: rt::Files> {
    rt: &'a R,
    last: Option<OpenAt<R::File>>,
    faults: u64,
    absences: u64,
    refused: RefusedName,
}

impl<'a, R: rt::Files + AllocGlobal> RealFiles<'a, R> {
    /// No file is open, no call has failed, and none was found absent.
    pub fn new(rt: &'a R) -> RealFiles<'a, R>
        ensures faults { ⟦<RealFiles<'a, R> as Files>⟧.faults result ≡ 0 }
        ensures absences { ⟦<RealFiles<'a, R> as Files>⟧.absences result ≡ 0 }
    {
        RealFiles {
            rt,
            last: None,
            faults: 0,
            absences: 0,
            refused: RefusedName::of(&""),
        }
    }
}

/// The named file, open at a place: the one that is open where it stands there, else opened anew.
fn open_at<R: rt::Files + AllocGlobal>(
    rt: &R,
    last: Option<OpenAt<R::File>>,
    name: &str,
    from: u64,
) -> io::Result<OpenAt<R::File>>
    ensures ready { IfOk result (IsReady R.File.stream_position last name.now from) }
{
    if let Some(last) = last {
        if last.stands_at(name, from) {
            return Ok(last);
        }
    }
    let file = fs::open(rt, name)?;
    OpenAt::new(Text::from_str(rt.alloc(), name)?, file, from)
}

/// What a read from a place comes to: its bytes where the place behind them can be counted, no file
/// exactly where it said that there is none, else a fault.
fn outcome(read: io::Result<usize>, from: u64) -> Result<Option<usize>, Failed>
    ensures { ComesTo read from result }
{
    match read {
        Ok(n) if (n as u64) <= u64::MAX - from => Ok(Some(n)),
        Err(e) if e.kind() == ErrorKind::NotFound => Ok(None),
        _ => Err(Failed),
    }
}

impl<R: rt::Files + AllocGlobal> RealFiles<'_, R> {
    /// Reads on in the named file from a place. Behind an error no file is open.
    fn read_from(&mut self, name: &str, from: u64, buf: &mut [u8]) -> io::Result<usize>
        ensures count { IfOk result (λ n. n ≤ length buf.old) }
        ensures length { length buf.new ≡ length buf.old }
        ensures went { Went R.File.stream_position R.File.remaining (last_of self.old) (last_of self.new) name.now from buf.new result }
        ensures faults { self.new.faults ≡ self.old.faults }
        ensures absences { self.new.absences ≡ self.old.absences }
        ensures refused { refused_of self.new ≡ refused_of self.old }
    {
        let mut open = open_at(self.rt, self.last.take(), name, from)?;
        let n = open.read(buf)?;
        self.last = Some(open);
        Ok(n)
    }

    /// Counts an answer for the file of this name, keeps the name unless it was read, and hands the
    /// answer on.
    fn count(
        &mut self,
        name: &str,
        answer: Result<Option<usize>, Failed>,
    ) -> Result<Option<usize>, Failed>
        ensures answer { result ≡ answer }
        ensures failed { OnErr answer (self.new.faults ≡ counted self.old.faults) }
        ensures no_fault { OnOk answer (self.new.faults ≡ self.old.faults) }
        ensures absent { answer ≡ Ok None → self.new.absences ≡ counted self.old.absences }
        ensures found { answer ≢ Ok None → self.new.absences ≡ self.old.absences }
        ensures faults { self.old.faults ≤ self.new.faults }
        ensures absences { self.old.absences ≤ self.new.absences }
        ensures named { OnErr answer (refused_of self.new ≡ name.now) }
        ensures not_there { answer ≡ Ok None → refused_of self.new ≡ name.now }
        ensures not_refused { IfOk answer (λ got. OnSome got (refused_of self.new ≡ refused_of self.old)) }
        ensures last { last_of self.new ≡ last_of self.old }
    {
        match answer {
            Ok(Some(_)) => return answer,
            Ok(None) => self.absences = self.absences.saturating_add(1),
            Err(Failed) => self.faults = self.faults.saturating_add(1),
        }
        self.refused = RefusedName::of(&name);
        answer
    }
}

impl<R: rt::Files + AllocGlobal> Files for RealFiles<'_, R> {
    ghost contents = { λ _. None };

    ghost faults = { λ f. f.faults };

    ghost absences = { λ f. f.absences };

    ghost refused = { refused_of };

    /// These files tell nothing of what they hold, so the first two clauses, which are the trait's, bind
    /// nothing here.
    fn read_at(&mut self, name: &str, from: u64, buf: &mut [u8]) -> Result<Option<usize>, Failed>
        ensures present { (file : List ℕ) → Tells None name.now (Some file)
            → IfOk result (λ got. (n : ℕ) × (got ≡ Some n) × ReadsAt file from buf.new n) }
        ensures missing { Tells None name.now None → IfOk result (λ got. got ≡ None) }
        ensures count { IfOk result (λ got. IfSome got (λ n. n ≤ length buf.old)) }
        ensures end { IfOk result (λ got. IfSome got (λ n. from + n ≤ 2 ^ 64 - 1)) }
        ensures absent { IfOk result (λ got. IfNone got (Rose self.old.absences self.new.absences)) }
        ensures found { IfOk result (λ got. OnSome got (self.new.absences ≡ self.old.absences)) }
        ensures untouched { OnErr result (self.new.absences ≡ self.old.absences) }
        ensures failed { OnErr result (Rose self.old.faults self.new.faults) }
        ensures no_fault { OnOk result (self.new.faults ≡ self.old.faults) }
        ensures faults { self.old.faults ≤ self.new.faults }
        ensures absences { self.old.absences ≤ self.new.absences }

        ensures named { OnErr result (refused_of self.new ≡ name.now) }
        ensures not_there { IfOk result (λ got. IfNone got (refused_of self.new ≡ name.now)) }
        ensures not_refused { IfOk result (λ got. OnSome got (refused_of self.new ≡ refused_of self.old)) }

        ensures name { IfOk result (λ got. OnSome got (IsSomeAnd (last_of self.new) (λ opened. name_of opened ≡ name.now))) }
        ensures place { IfOk result (λ got. IfSome got (λ n. IsSomeAnd (last_of self.new) (λ opened. place_of opened ≡ from + n))) }
        ensures bytes { IfSome (last_of self.old) (λ before. name_of before ≡ name.now → place_of before ≡ from
            → IfOk result (λ got. IfSome got (λ n. IsSomeAnd (last_of self.new)
            (λ after. WentOn R.File.remaining before after n buf.new)))) }

        // One read was made, of the file that stands open at the place or of one opened anew, and this is what it came to. Where it
        // failed, or found no file, none is open.
        ensures reads { ReadsOnce R.File.stream_position R.File.remaining (last_of self.old) (last_of self.new) name.now from buf.new result }
        ensures length { length buf.new ≡ length buf.old }
    {
        let read = self.read_from(name, from, buf);
        self.count(name, outcome(read, from))
    }

    fn refresh(&mut self)
        ensures closed { last_of self.new ≡ None }
        ensures faults { self.new.faults ≡ self.old.faults }
        ensures absences { self.new.absences ≡ self.old.absences }
        ensures refused { refused_of self.new ≡ refused_of self.old }
    {
        self.last = None;
    }
}
