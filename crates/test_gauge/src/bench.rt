use crate::answers::write_answer;
use fg_outside::{CallNos, Folder, Folders, HeldFile, HeldFiles, MemFiles};
use gauge_load::load_gauge;
use net_base::{Bytes, NoMemory, Text};
use std::alloc::Global;
use std::str::from_utf8;
use test_lines::{Answers, unescaped, write_repeated};

/// What the cases from a line on speak of.
#[derive(Drop)]
pub struct Bench {
    /// The files beside Gauge's own, a line for each.
    files: String,
    name: String,
    before: String,
    behind: String,
    /// The number of the read that fails.
    failing: u64,
}

fn plain(alloc: Global, text: &str) -> Result<String, NoMemory> {
    let bytes = unescaped(alloc, text)?;
    String::from_str(alloc, from_utf8(bytes.as_slice()).unwrap_or(""))
}

fn file(alloc: Global, name: &str, text: &[u8]) -> Result<HeldFile, NoMemory> {
    Ok(HeldFile {
        name: Text::from_str(alloc, name)?,
        bytes: Bytes::from_slice(alloc, text)?,
    })
}

impl Bench {
    pub fn new(alloc: Global) -> Bench {
        Bench {
            files: String::new(alloc),
            name: String::new(alloc),
            before: String::new(alloc),
            behind: String::new(alloc),
            failing: 0,
        }
    }

    /// Gauge's file of this text, and the files beside it; with no name there is none of Gauge's.
    fn held(&self, alloc: Global, text: &[u8]) -> Result<HeldFiles, NoMemory> {
        let mut held = HeldFiles::new(alloc);
        if !text.is_empty() {
            held.push(file(alloc, self.name.as_str(), text)?)?;
        }
        for line in self.files.as_str().lines() {
            let (name, text) = line.split_once(' ').unwrap_or((line, ""));
            let whole = unescaped(alloc, text)?;
            held.push(file(alloc, name, whole.as_slice())?)?;
        }
        Ok(held)
    }

    fn files(&self, alloc: Global, text: &[u8]) -> Result<MemFiles, NoMemory> {
        let mut folders = Folders::new(alloc);
        folders.push(Folder {
            held: self.held(alloc, text)?,
        })?;
        let failing = CallNos::from_slice(alloc, &[self.failing])?;
        Ok(MemFiles::new(folders, failing))
    }

    /// What is answered to Gauge's file with this text.
    fn ask(&self, alloc: Global, text: &str) -> Result<String, NoMemory> {
        let mut whole = String::new(alloc);
        write_repeated(&mut whole, self.before.as_str())?;
        write_repeated(&mut whole, text)?;
        write_repeated(&mut whole, self.behind.as_str())?;
        let bytes = unescaped(alloc, whole.as_str())?;
        let mut files = self.files(alloc, bytes.as_slice())?;
        let mut out = String::new(alloc);
        out.push_str(" => ")?;
        write_answer(&mut out, load_gauge(alloc, &mut files, self.name.as_str()))?;
        Ok(out)
    }
}

impl Answers for Bench {
    fn answer(&mut self, alloc: Global, line: &str) -> Result<String, NoMemory> {
        match line.split_once(' ').unwrap_or((line, "")) {
            ("files", text) => self.files = plain(alloc, text)?,
            ("name", text) => self.name = plain(alloc, text)?,
            ("fails", text) => self.failing = text.parse::<u64>().unwrap_or(0),
            ("around", places) => {
                let (before, behind) = places.split_once('|').unwrap_or(("", ""));
                self.before = String::from_str(alloc, before)?;
                self.behind = String::from_str(alloc, behind)?;
            }
            ("gauge", text) => return self.ask(alloc, text),
            _ => {}
        }
        Ok(String::new(alloc))
    }
}
