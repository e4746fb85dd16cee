use crate::answers::{write_conf_fault, write_yaml_fault};
use crate::trees::write_tree;
use conf_gather::{LoadRefused, gather};
use fg_outside::{CallNos, Folder, Folders, HeldFile, HeldFiles, MemFiles};
use net_base::{Bytes, NoMemory, Text};
use std::alloc::{AllocError, Global};
use std::str::from_utf8;

/// Files of which each line has a name, a space and the text.
fn held(alloc: Global, lines: &str) -> Result<HeldFiles, NoMemory> {
    let mut held = HeldFiles::new(alloc);
    for line in lines.lines() {
        let (name, text) = line.split_once(' ').unwrap_or((line, ""));
        held.push(HeldFile {
            name: Text::from_str(alloc, name)?,
            bytes: Bytes::from_slice(alloc, text.as_bytes())?,
        })?;
    }
    Ok(held)
}

/// Writes what is gathered of the first file. The text is the number of the read that fails, from 1 on or
/// 0 for none, and the files.
pub fn write_gathered(out: &mut String, alloc: Global, text: &[u8]) -> Result<(), NoMemory> {
    let text = from_utf8(text).unwrap_or("");
    let (failing, lines) = text.split_once(' ').unwrap_or(("", text));
    let (main, _) = lines.split_once(' ').unwrap_or((lines, ""));
    let mut folders = Folders::new(alloc);
    folders.push(Folder {
        held: held(alloc, lines)?,
    })?;
    let failing = CallNos::from_slice(alloc, &[failing.parse::<u64>().unwrap_or(0)])?;
    let mut files = MemFiles::new(folders, failing);
    match gather(alloc, &mut files, main) {
        Ok(tree) => write_tree(out, &tree),
        Err(refused) => write_refusal(out, &refused),
    }
}

fn write_refusal(out: &mut String, refused: &LoadRefused) -> Result<(), NoMemory> {
    match refused {
        LoadRefused::Read(name) => write!(out, "{}: Read", name.as_str()),
        LoadRefused::Yaml(name, fault) => {
            write!(out, "{}: ", name.as_str())?;
            write_yaml_fault(out, fault)
        }
        LoadRefused::Conf(fault) => write_conf_fault(out, fault),
        LoadRefused::IncludeTwice(name) => write!(out, "{}: IncludeTwice", name.as_str()),
        LoadRefused::IncludeDepth(name) => write!(out, "{}: IncludeDepth", name.as_str()),
        LoadRefused::Absent(name) => write!(out, "{}: Absent", name.as_str()),
        LoadRefused::Memory => Err(AllocError),
    }
}
