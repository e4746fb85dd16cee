ghost use Rattle.std.specs.Prelude.{◌≡◌, ◌≢◌, ◌<◌, ◌≤◌, [], length, true, false, IfOk, OnErr};
ghost use Rattle.fg_outside.specs.Counts.{Rose};
ghost use Rattle.fg_outside.specs.Left.{prepended, IsAtEnd};
ghost use Rattle.fg_links.specs.Moved.{IfTook, UnlessTook};

use crate::queue::Queue;
use fg_links::{Gave, Link, Took};
use fg_outside::EndCause;
use net_base::NoMemory;
use std::alloc::Global;
use std::snapshot::Snapshot;

/// How many bytes may wait to be written on one link.
pub(crate) const MOST_UNSENT: usize = 67_108_864;

/// An open link, with what waits to be written on it.
#[derive(Drop)]
pub(crate) struct Live<L> {
    link: L,
    unsent: Queue,
    // The link as it was when it opened.
    opened: Snapshot<L>,
    ghost few: { length unsent ≤ 67108864 },
}

// Reads once, into a piece that it cuts to what was read.
fn read_into<L: Link>(link: &mut L, piece: &mut Vec<u8>) -> Took
    ensures some { 0 < length piece.old.items → IfTook result (λ _. 0 < length piece.new.items) }
    ensures within { IfTook result (λ _. length piece.new.items ≤ length piece.old.items) }
    ensures took { IfTook result (λ _. L.left link.old ≡ prepended piece.new.items (L.left link.new)) }
    ensures kept { UnlessTook result (L.left link.new ≡ L.left link.old) }
    ensures end { result ≡ Took.End → IsAtEnd (L.left link.old) }
    ensures wrote { L.wrote link.new ≡ L.wrote link.old }
    ensures failed { result ≡ Took.Failed → Rose (L.faults link.old) (L.faults link.new) }
    ensures faults { L.faults link.old ≤ L.faults link.new }
    ensures not_yet { result ≡ Took.NotYet → Rose (L.unread link.old) (L.unread link.new) }
    ensures no_wait { result ≢ Took.NotYet → L.unread link.new ≡ L.unread link.old }
    ensures unwritten { L.unwritten link.new ≡ L.unwritten link.old }
{
    let took = link.read(piece.as_mut_slice());
    if let Took::Some(count) = took {
        piece.truncate(count);
    }
    took
}

impl<L: Link + Drop> Live<L> {
    ghost use Rattle.link_hub.specs.Links.{Sends, Serves, Says, IsNew, IsFlushed, IsUnread};

    /// A link that opens.
    pub(crate) fn new(alloc: Global, link: L) -> Live<L>
        ensures { IsNew link result }
    {
        let opened = Snapshot::of(&link);
        Live {
            link,
            unsent: Queue::new(alloc),
            opened,
        }
    }

    /// The link.
    pub(crate) fn link(&self) -> &L
        ensures { result.now ≡ self.now.link }
    {
        &self.link
    }

    // Writes what waits until nothing does, or the link can take no more yet. False where a write
    // failed.
    fn flush(&mut self) -> bool
        ensures sends { Sends L.Link [] self.old self.new }
        ensures unread { IsUnread L.Link self.old self.new }
        ensures flushed { result ≡ true → IsFlushed L.Link self.old self.new }
        ensures fault { result ≡ false → Rose (L.faults self.old.link) (L.faults self.new.link) }
    {
        while self.unsent.len() > 0 {
            match self.link.write(self.unsent.as_slice()) {
                Gave::Some(count) => self.unsent.take_front(count),
                Gave::NotYet => return true,
                Gave::Failed => return false,
            }
        }
        true
    }

    /// Writes what waits, and then reads once, into a piece that it cuts to what was read.
    pub(crate) fn serve(&mut self, piece: &mut Vec<u8>) -> Took
        ensures { Serves L.Link result (length piece.old.items) piece.new.items self.old self.new }
    {
        if self.flush() {
            read_into(&mut self.link, piece)
        } else {
            Took::Failed
        }
    }

    /// Says a piece behind what waits, and writes; or why the link ends. After `NoMemory` it is as
    /// it was.
    pub(crate) fn say(&mut self, piece: &[u8]) -> Result<Option<EndCause>, NoMemory>
        ensures said { IfOk result (λ end. Says L.Link piece.now self.old end self.new) }
        ensures err { OnErr result (self.new ≡ self.old) }
    {
        if piece.len() > MOST_UNSENT - self.unsent.len() {
            return Ok(Some(EndCause::Overfull));
        }
        self.unsent.append(piece)?;
        Ok(if self.flush() {
            None
        } else {
            Some(EndCause::LinkFault)
        })
    }
}
