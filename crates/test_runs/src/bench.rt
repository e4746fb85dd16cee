//! The files that the runs see, and what fails in them.

use crate::around::{Around, run_around};
use crate::flights::run_recorded;
use crate::runs::refuse;
use fg_outside::{CallNos, Folder, Folders, HeldFile, HeldFiles, MemFiles};
use net_base::{Bytes, NoMemory, Text, TryCopy};
use std::alloc::Global;
use test_lines::{Answers, bytes_of, unescaped, write_repeated};

/// Which calls of a run fail, numbered from 1 on, and how many bytes standard output and a recording hold.
#[derive(Clone, Copy, Debug)]
pub struct Outside {
    pub read: u64,
    pub out: u64,
    pub err: u64,
    pub room: usize,
    pub record: u64,
    pub record_room: usize,
}

/// Nothing fails, and there is room.
const SURE: Outside = Outside {
    read: 0,
    out: 0,
    err: 0,
    room: 100_000,
    record: 0,
    record_room: 100_000,
};

/// The files of the lines before, and what fails in the next run.
#[derive(Drop)]
pub struct Bench {
    held: HeldFiles,
    // Files that are there from the first refresh on, in place of those of their names.
    later: HeldFiles,
    outside: Outside,
    around: Around,
}

/// A file of a line with its name, a space and its text.
fn file(alloc: Global, line: &str) -> Result<HeldFile, NoMemory> {
    let (name, text) = line.split_once(' ').unwrap_or((line, ""));
    let mut whole = String::new(alloc);
    write_repeated(&mut whole, text)?;
    Ok(HeldFile {
        name: Text::from_str(alloc, name)?,
        bytes: unescaped(alloc, whole.as_str())?,
    })
}

/// A file of a line with its name and its bytes, as words of hexadecimal digits; of a word that is none
/// nothing.
fn bytes_file(alloc: Global, line: &str) -> Result<HeldFile, NoMemory> {
    let (name, digits) = line.split_once(' ').unwrap_or((line, ""));
    Ok(HeldFile {
        name: Text::from_str(alloc, name)?,
        bytes: bytes_of(alloc, digits)?,
    })
}

/// The name of a file that was cut.
const CUT: &str = "cut";

/// The first bytes of a file, as the file `cut`.
fn front_of(alloc: Global, file: &HeldFile, count: usize) -> Result<HeldFile, NoMemory> {
    let bytes = file.bytes.as_slice();
    Ok(HeldFile {
        name: Text::from_str(alloc, CUT)?,
        bytes: Bytes::from_slice(alloc, &bytes[..count.min(bytes.len())])?,
    })
}

impl Bench {
    /// No file, and nothing fails.
    pub fn new(alloc: Global) -> Bench {
        Bench {
            held: HeldFiles::new(alloc),
            later: HeldFiles::new(alloc),
            outside: SURE,
            around: Around::Nothing,
        }
    }

    fn files(&self, alloc: Global) -> Result<MemFiles, NoMemory> {
        let mut folders = Folders::new(alloc);
        folders.push(Folder {
            held: self.held.copy(alloc)?,
        })?;
        let mut held = self.later.copy(alloc)?;
        for file in self.held.as_slice() {
            held.push(file.copy(alloc)?)?;
        }
        folders.push(Folder { held })?;
        Ok(MemFiles::new(folders, CallNos::from_slice(alloc, &[self.outside.read])?))
    }

    /// Takes what fails in the next run: `read N`, `out N`, `err N`, `room N`, `record N` or `tape N`.
    fn take_fault(&mut self, fault: &str) {
        let (what, number) = fault.split_once(' ').unwrap_or((fault, ""));
        let number = number.parse::<u64>().unwrap_or(0);
        match what {
            "read" => self.outside.read = number,
            "out" => self.outside.out = number,
            "err" => self.outside.err = number,
            "record" => self.outside.record = number,
            "tape" => self.outside.record_room = number as usize,
            _ => self.outside.room = number as usize,
        }
    }

    /// The first bytes of a file, as the file `cut` of the next runs, in place of that of the last cut: `NAME COUNT`.
    fn cut(&mut self, alloc: Global, line: &str) -> Result<(), NoMemory> {
        let (name, count) = line.split_once(' ').unwrap_or((line, ""));
        let count = count.parse::<usize>().unwrap_or(0);
        let mut held = HeldFiles::new(alloc);
        for file in self.held.as_slice() {
            if file.name.as_str() == name {
                held.push(front_of(alloc, file, count)?)?;
            }
            if file.name.as_str() != CUT {
                held.push(file.copy(alloc)?)?;
            }
        }
        self.held = held;
        Ok(())
    }

    /// The hub of this run, and none in the next.
    fn take_around(&mut self) -> Around {
        std::mem::replace(&mut self.around, Around::Nothing)
    }

    /// A recorded run over the turns of this hub, or over none, and its recording as a file for the next runs, in
    /// place of that of the run before.
    fn record(&mut self, alloc: Global, words: &str) -> Result<String, NoMemory> {
        let files = self.files(alloc)?;
        let outside = self.take_outside();
        let turns = match self.take_around() {
            Around::Turns(turns) => turns,
            _ => String::new(alloc),
        };
        let (text, flight) = run_recorded(alloc, words, turns.as_str(), files, outside)?;
        let mut held = HeldFiles::new(alloc);
        held.push(flight)?;
        for file in self.held.as_slice() {
            held.push(file.copy(alloc)?)?;
        }
        self.held = held;
        Ok(text)
    }

    /// What fails in this run, and nothing in the next.
    fn take_outside(&mut self) -> Outside {
        let outside = self.outside;
        self.outside = SURE;
        outside
    }
}

impl Answers for Bench {
    /// Of a run its status and what it wrote.
    fn answer(&mut self, alloc: Global, line: &str) -> Result<String, NoMemory> {
        match line.split_once(' ').unwrap_or((line, "")) {
            ("file", file_line) => self.held.push(file(alloc, file_line)?)?,
            ("hex", file_line) => self.held.push(bytes_file(alloc, file_line)?)?,
            ("later", file_line) => self.later.push(file(alloc, file_line)?)?,
            ("no", "files") => {
                self.held = HeldFiles::new(alloc);
                self.later = HeldFiles::new(alloc);
            }
            ("hub", turns) => self.around = Around::Turns(String::from_str(alloc, turns)?),
            ("cut", cut_line) => self.cut(alloc, cut_line)?,
            ("links", given) => self.around = Around::Heard(String::from_str(alloc, given)?),
            ("poller", "opens") => self.around = Around::Link,
            ("poller", "fails") => self.around = Around::Broken,
            ("fail", fault) => self.take_fault(fault),
            ("run", words) => {
                let files = self.files(alloc)?;
                let outside = self.take_outside();
                return run_around(alloc, words, files, outside, &self.take_around());
            }
            ("record", words) => return self.record(alloc, words),
            ("no", "memory") => return refuse(alloc, self.take_outside()),
            _ => {}
        }
        Ok(String::new(alloc))
    }
}
