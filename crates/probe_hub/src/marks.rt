//! The ports that a switch last told up.

ghost use Rattle.std.specs.Prelude.{◌≡◌, ◌==◌, ◌&&◌, [], OnOk};
ghost use Rattle.std.specs.List.{find, list_any};
ghost use Rattle.std.specs.Option.{option_copied};
ghost use Rattle.probe_hub.specs.Marks.{is_lost, is_over, mark_of, replaced, told, without};

use net_base::{NoMemory, PortNo};
use std::alloc::Global;
use std::marker::Model;

/// A port that its switch last told up.
#[derive(Clone, Copy, Debug, PartialEq, Eq)]
pub(crate) struct Mark {
    pub(crate) no: PortNo,
    /// The moment at which it was told so, or the last probe of the other end came in on it, in milliseconds.
    pub(crate) since: u64,
    /// Whether no probe came for too long.
    pub(crate) lost: bool,
}

/// The ports that a switch last told up, at most one mark of each. Contracts see the list.
#[derive(Debug, Drop)]
pub(crate) struct Marks {
    marks: Vec<Mark>,
}

impl Model for Marks {
    ghost use Rattle.std.specs.Prelude.{List};
    ghost use Rattle.probe_hub.specs.declared.marks.Mark.{Mark};

    ghost Value = { List Mark };

    ghost view = { λ it. it.marks.items };
}

/// Whether a window that began at a moment is over.
pub(crate) fn is_over(since: u64, window: u64, moment: u64) -> bool
    ensures { result ≡ is_over since window moment }
{
    since <= moment && window <= moment - since
}

fn find(marks: &[Mark], no: PortNo) -> Option<&Mark>
    ensures { option_copied result ≡ mark_of marks.now no }
{
    marks.iter().find(|mark| mark.no == no)
}

fn has_lost(marks: &[Mark], no: PortNo) -> bool
    ensures { result ≡ is_lost marks.now no }
{
    marks.iter().any(|mark| mark.no == no && mark.lost)
}

fn forget(marks: &mut Vec<Mark>, no: PortNo)
    ensures { marks.new.items ≡ without no marks.old.items }
{
    marks.retain(|mark| mark.no != no);
}

fn replace(marks: &mut [Mark], to: Mark)
    ensures { marks.new ≡ replaced to marks.old }
{
    for mark in marks.iter_mut() {
        if mark.no == to.no {
            *mark = to;
        }
    }
}

impl Marks {
    /// None, which takes no memory yet.
    pub(crate) fn new(alloc: Global) -> Marks
        ensures { result ≡ [] }
    {
        Marks {
            marks: Vec::new(alloc),
        }
    }

    /// The mark of a port; `None` exactly where it wasn't last told up.
    pub(crate) fn of(&self, no: PortNo) -> Option<Mark>
        ensures { result ≡ mark_of self.now no }
    {
        match find(self.marks.as_slice(), no) {
            Some(mark) => Some(*mark),
            None => None,
        }
    }

    /// Whether a port is lost.
    pub(crate) fn is_lost(&self, no: PortNo) -> bool
        ensures { result ≡ is_lost self.now no }
    {
        has_lost(self.marks.as_slice(), no)
    }

    /// A port is told up at this moment, or told otherwise.
    pub(crate) fn tell(&mut self, moment: u64, no: PortNo, up: bool) -> Result<(), NoMemory>
        ensures { OnOk result (self.new ≡ told moment no up self.old) }
    {
        forget(&mut self.marks, no);
        if up {
            self.marks.push(Mark {
                no,
                since: moment,
                lost: false,
            })?;
        }
        Ok(())
    }

    /// Puts a mark in the place of that of its port, where there is one.
    pub(crate) fn put(&mut self, mark: Mark)
        ensures { self.new ≡ replaced mark self.old }
    {
        replace(self.marks.as_mut_slice(), mark);
    }
}
