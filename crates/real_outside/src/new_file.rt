ghost use Rattle.std.specs.Prelude.{◌≡◌, ◌≤◌, ◌<◌, None, length, take, IfOk, IfSome, IsSomeAnd, OnOk, OnErr};
ghost use Rattle.std.specs.Io.KnownBytes.{Appends};
ghost use Rattle.fg_outside.specs.Counts.{Rose};
ghost use Rattle.fg_outside.specs.Wrote.{appended};
ghost use Rattle.real_outside.specs.NewFile.{made_in, named_in};

use fg_outside::{Failed, Sink};
use net_base::Text;
use std::fs::File;
use std::io::{self, Write};
use std::rt;

/// A file as a sink, which is made at the first write. Where there is a file of its name already, that is left
/// as it is, and the write fails. It has no buffer: what it takes goes to the system at once. It tells nothing of
/// what it holds, and counts its faults. Behind a fault nothing more is written.
#[derive(Drop)]
pub struct NewFile<'a, R: rt::Files> {
    rt: &'a R,
    name: Text,
    file: Option<R::File>,
    faults: u64,
}

impl<'a, R: rt::Files> NewFile<'a, R> {
    /// No file is made yet, and no write has failed.
    pub fn new(rt: &'a R, name: Text) -> NewFile<'a, R>
        ensures name { named_in result ≡ name }
        ensures made { made_in result ≡ None }
        ensures faults { ⟦<NewFile<'a, R> as Sink>⟧.faults result ≡ 0 }
    {
        NewFile {
            rt,
            name,
            file: None,
            faults: 0,
        }
    }
}

impl<R: rt::Files> NewFile<'_, R> {
    // Hands a piece to the file, which is made first where that wasn't done. Behind an error there is none.
    fn hand(&mut self, piece: &[u8]) -> io::Result<usize>
        ensures count { IfOk result (λ n. n ≤ length piece.now) }
        ensures handed { IfSome (made_in self.old) (λ before. IfOk result (λ n. IsSomeAnd (made_in self.new)
            (λ after. Appends (R.File.contents before) (R.File.contents after) (take n piece.now)))) }
        ensures closed { OnErr result (made_in self.new ≡ None) }
        ensures name { named_in self.new ≡ named_in self.old }
        ensures faults { self.new.faults ≡ self.old.faults }
    {
        let mut file = match self.file.take() {
            Some(file) => file,
            None => File::create_new(self.rt, self.name.as_str())?,
        };
        let n = file.write(piece)?;
        self.file = Some(file);
        Ok(n)
    }
}

impl<R: rt::Files> Sink for NewFile<'_, R> {
    ghost wrote = { λ _. None };

    ghost faults = { λ f. f.faults };

    /// Hands the piece to the file once, and says how many bytes that took from its front.
    /// The file tells nothing, so `took` and `kept`, which are the trait's, bind nothing here.
    fn write(&mut self, piece: &[u8]) -> Result<usize, Failed>
        ensures took { IfOk result (λ n. None ≡ appended None (take n piece.now)) }
        ensures kept { OnErr result (None ≡ appended None piece.now) }
        ensures some { 0 < length piece.now → IfOk result (λ n. 0 < n) }
        ensures within { IfOk result (λ n. n ≤ length piece.now) }
        ensures failed { OnErr result (Rose self.old.faults self.new.faults) }
        ensures no_fault { OnOk result (self.new.faults ≡ self.old.faults) }
        ensures faults { self.old.faults ≤ self.new.faults }

        ensures handed { IfSome (made_in self.old) (λ before. IfOk result (λ n. IsSomeAnd (made_in self.new)
            (λ after. Appends (R.File.contents before) (R.File.contents after) (take n piece.now)))) }
        ensures name { named_in self.new ≡ named_in self.old }
    {
        match self.hand(piece) {
            Ok(n) if 0 < n || piece.is_empty() => Ok(n),
            _ => {
                self.faults = self.faults.saturating_add(1);
                Err(Failed)
            }
        }
    }
}
