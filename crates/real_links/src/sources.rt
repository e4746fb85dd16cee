ghost use Rattle.std.specs.Prelude.{◌≡◌, ◌+◌, ◌≤◌, true, None, Some, OnOk, OnErr, IfSome, IfNone, IsSome};
ghost use Rattle.std.specs.Ordering.{nat_cmp};
ghost use Rattle.std.specs.BTreeMap.{values, Updates, IsUnchanged};
ghost use Rattle.std.specs.List.{list_any};
ghost use Rattle.real_links.specs.Sources.{ready_in, ready_at, from_of, first_ready};

use net_base::NoMemory;
use std::alloc::{AllocError, Global};
use std::collections::BTreeMap;

/// The number of the listener. Links have numbers from 1.
pub(crate) const LISTENER: u32 = 0;

/// What may have something to be taken: the listener and the links, by their numbers, each with
/// whether it is ready; and from which number on the next turn is.
#[derive(Drop)]
pub(crate) struct Sources {
    ready: BTreeMap<u32, bool>,
    from: u64,
}

impl Sources {
    /// None yet.
    pub(crate) fn new(alloc: Global) -> Sources
        ensures from { from_of result ≡ 0 }
    {
        Sources {
            ready: BTreeMap::new(alloc),
            from: 0,
        }
    }

    /// One more, which is ready.
    pub(crate) fn open(&mut self, number: u32) -> Result<(), NoMemory>
        ensures ok { OnOk result (Updates nat_cmp (ready_in self.old) (ready_in self.new) number (Some true)) }
        ensures err { OnErr result (IsUnchanged (ready_in self.old) (ready_in self.new)) }
        ensures from { from_of self.new ≡ from_of self.old }
    {
        match self.ready.insert(number, true) {
            Ok(_) => Ok(()),
            Err(_) => Err(AllocError),
        }
    }

    /// Whether one is ready from now on, where it is open.
    pub(crate) fn set(&mut self, number: u32, ready: bool)
        ensures opened { IsSome (ready_at self.old number) → Updates nat_cmp (ready_in self.old) (ready_in self.new) number (Some ready) }
        ensures other { ready_at self.old number ≡ None → self.new ≡ self.old }
        ensures from { from_of self.new ≡ from_of self.old }
    {
        if let Some(was) = self.ready.get_mut(&number) {
            *was = ready;
        }
    }

    /// One is no longer open.
    pub(crate) fn close(&mut self, number: u32)
        ensures closed { Updates nat_cmp (ready_in self.old) (ready_in self.new) number None }
        ensures from { from_of self.new ≡ from_of self.old }
    {
        self.ready.remove(&number);
    }

    /// Whether one is ready.
    pub(crate) fn is_any_ready(&self) -> bool
        ensures { result ≡ list_any (λ ready. ready) (values (ready_in self.now)) }
    {
        self.ready.values().any(|ready| *ready)
    }

    // The first that is ready of those with this number or a greater one.
    fn first_from(&self, from: u64) -> Option<u32>
        ensures first { result ≡ first_ready from (ready_in self.now) }
        ensures ready { IfSome result (λ number. ready_at self.now number ≡ Some true) }
    {
        let (number, _) = self
            .ready
            .iter()
            .find(|(number, ready)| **ready && from <= u64::from(**number))?;
        Some(*number)
    }

    /// The number of the ready one whose turn is next; `None` where all that are ready had their turn,
    /// and then it is the first one's again.
    pub(crate) fn next(&mut self) -> Option<u32>
        ensures first { result ≡ first_ready (from_of self.old) (ready_in self.old) }
        ensures ready { IfSome result (λ number. ready_at self.new number ≡ Some true) }
        ensures some { IfSome result (λ number. from_of self.new ≡ number + 1) }
        ensures none { IfNone result (from_of self.new ≡ 0) }
        ensures same { ready_in self.new ≡ ready_in self.old }
    {
        let next = self.first_from(self.from);
        self.from = match next {
            Some(number) => u64::from(number) + 1,
            None => 0,
        };
        next
    }
}
