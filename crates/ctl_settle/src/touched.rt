//! What may differ from the state that the plans were brought up to last.

ghost use Rattle.std.specs.Prelude.{◌≡◌, ◌++◌, ◌∷◌, [], Some, None, List, is_some, not, OnOk};
ghost use Rattle.std.specs.Option.{option_map};
ghost use Rattle.conf_types.specs.declared.change.Change.{Change as Named};

use net_base::NoMemory;
use std::alloc::Global;
use std::marker::Model;
use warm_plan::Change;

/// What may differ: what is named, or anything. Contracts see the list, or `None` for anything.
#[derive(Drop)]
pub struct Touched {
    is_any: bool,
    list: Vec<Change>,
}

impl Model for Touched {
    ghost use Rattle.std.specs.Prelude.{None, Some, if◌then◌else◌};
    ghost use Rattle.ctl_settle.specs.Touched.{MayDiffer};

    ghost Value = { MayDiffer };

    ghost view = { λ t. if t.is_any then None else Some t.list.items };
}

impl Touched {
    /// Nothing differs.
    pub fn nothing(alloc: Global) -> Touched
        ensures { result ≡ Some [] }
    {
        Touched {
            is_any: false,
            list: Vec::new(alloc),
        }
    }

    /// Anything may.
    pub fn anything(alloc: Global) -> Touched
        ensures { result ≡ None }
    {
        Touched {
            is_any: true,
            list: Vec::new(alloc),
        }
    }

    /// One part more may.
    pub fn push(&mut self, change: Change) -> Result<(), NoMemory>
        ensures { OnOk result (self.new ≡ option_map (λ changes. changes ++ change ∷ []) self.old) }
    {
        if !self.is_any {
            self.list.push(change)?;
        }
        Ok(())
    }

    /// Whether anything may.
    pub fn is_any(&self) -> bool
        ensures { result ≡ not (is_some self.now) }
    {
        self.is_any
    }

    /// What is named, where not anything may differ.
    pub fn list(&self) -> &[Change]
        ensures { (changes : List Named) → self.now ≡ Some changes → result.now ≡ changes }
    {
        self.list.as_slice()
    }
}
