ghost use Rattle.std.specs.Prelude.{◌≡◌, find, nat_eq};
ghost use Rattle.std.specs.Option.{option_copied, option_map};

use net_base::{Bytes, Items, NoMemory, Text, TryCopy};
use std::alloc::Global;

/// A file in memory.
#[derive(Debug, Drop)]
pub struct HeldFile {
    pub name: Text,
    pub bytes: Bytes,
}

/// A list of files in memory.
pub type HeldFiles = Items<HeldFile>;

impl TryCopy for HeldFile {
    fn copy(&self, alloc: Global) -> Result<HeldFile, NoMemory> {
        Ok(HeldFile {
            name: self.name.copy(alloc)?,
            bytes: self.bytes.copy(alloc)?,
        })
    }
}

/// The files that are there at one time. Of two of one name the first counts.
#[derive(Debug, Drop)]
pub struct Folder {
    pub held: HeldFiles,
}

/// A list of folders, each of them what is there after one refresh more.
pub type Folders = Items<Folder>;

impl TryCopy for Folder {
    fn copy(&self, alloc: Global) -> Result<Folder, NoMemory> {
        Ok(Folder {
            held: self.held.copy(alloc)?,
        })
    }
}

impl Folder {
    ghost use Rattle.fg_outside.specs.Folders.{file_named};

    /// The first file of this name.
    pub(crate) fn find(&self, name: &str) -> Option<&HeldFile>
        ensures { option_map (λ file. file.bytes) (option_copied result) ≡ file_named self.now.held name.now }
    {
        self.held
            .as_slice()
            .iter()
            .find(|file| file.name.as_str() == name)
    }
}
