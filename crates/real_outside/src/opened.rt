ghost use Rattle.std.specs.Prelude.{◌≤◌, ◌<◌, ◌≡◌, ◌+◌, ◌-◌, ◌^◌, ◌↔◌, true, min, length, Some, IfOk, IfSome, IsOkAnd};
ghost use Rattle.real_outside.specs.Opened.{name_of, file_of, place_of, WentOn};

use net_base::Text;
use std::io::{self, Read, Seek, SeekFrom};

/// A file that is open at a place. Only `new` and `read` set the place, so that no file is held to
/// stand where it wasn't moved.
#[derive(Drop)]
pub struct OpenAt<F> {
    name: Text,
    file: F,
    at: u64,
}

impl<F> OpenAt<F> {
    /// Whether it is the named file, open at this place.
    pub fn stands_at(&self, name: &str, place: u64) -> bool
        ensures { result ≡ true ↔ (name_of self.now ≡ name.now) × (place_of self.now ≡ place) }
    {
        self.at == place && self.name.as_str() == name
    }
}

impl<F: Seek + Drop> OpenAt<F> {
    /// A file that has just been opened, moved on to a place. At its front it stands already, and
    /// isn't moved: a pipe can't be.
    pub fn new(name: Text, file: F, place: u64) -> io::Result<OpenAt<F>>
        ensures name { IfOk result (λ opened. name_of opened ≡ name) }
        ensures place { IfOk result (λ opened. place_of opened ≡ place) }
        ensures moved { 0 < place → IfOk result (λ opened. IfSome (F.stream_position file)
            (λ _. F.stream_position (file_of opened) ≡ Some place)) }
        ensures front { place ≡ 0 → IsOkAnd result (λ opened. file_of opened ≡ file) }
    {
        let mut file = file;
        if place > 0 {
            file.seek(SeekFrom::Start(place))?;
        }
        Ok(OpenAt {
            name,
            file,
            at: place,
        })
    }
}

impl<F: Read> OpenAt<F> {
    /// Reads on in the file, and stands behind what was read.
    pub fn read(&mut self, buf: &mut [u8]) -> io::Result<usize>
        ensures count { IfOk result (λ n. n ≤ length buf.old) }
        ensures length { length buf.new ≡ length buf.old }
        ensures bytes { IfOk result (λ n. WentOn F.remaining self.old self.new n buf.new) }
        ensures name { name_of self.new ≡ name_of self.old }
        ensures place { IfOk result (λ n. place_of self.new ≡ min (place_of self.old + n) (2 ^ 64 - 1)) }
    {
        let n = self.file.read(buf)?;
        self.at = self.at.saturating_add(n as u64);
        Ok(n)
    }
}
