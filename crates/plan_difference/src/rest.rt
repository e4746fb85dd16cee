//! What is left of a plan as it is gone through.

ghost use Rattle.std.specs.Prelude.{◌≡◌, [], ◌∷◌, IfSome, IfNone};
ghost use Rattle.std.specs.declared.cmp.Ordering.TheVariants.{Less};
ghost use Rattle.std.specs.Option.{option_copied};
ghost use Rattle.of_match.specs.FlowTables.{IsInKeyOrder, entry_at, below, above};
ghost use Rattle.of_match.specs.KeyOrder.{key_cmp};

use of_match::{Entry, Key, Tables, TablesIter};
use std::marker::Model;

/// The entries that are left, in key order, which is what contracts see.
#[derive(Debug, Drop)]
pub(crate) struct Rest<'a> {
    first: Option<&'a Entry>,
    others: TablesIter<'a>,
}

impl<'a> Model for Rest<'a> {
    ghost use Rattle.std.specs.Prelude.{List, [], ◌∷◌};
    ghost use Rattle.std.specs.Option.{option_map_or};
    ghost use Rattle.of_match.specs.declared.entry.Entry.{Entry};

    ghost Value = { List Entry };

    ghost view = { λ r. option_map_or (λ e. e.now ∷ r.others) r.first [] };
}

impl<'a> Rest<'a> {
    /// All entries of a plan.
    pub(crate) fn of(plan: &'a Tables) -> Rest<'a>
        ensures items { result ≡ plan.now }
        ensures ordered { IsInKeyOrder plan.now }
    {
        let mut others = plan.iter();
        let first = others.next();
        Rest { first, others }
    }

    /// Takes out the first entry, if one is left.
    pub(crate) fn next(&mut self) -> Option<&'a Entry>
        ensures taken { IfSome result (λ e. self.old ≡ e.now ∷ self.new) }
        ensures ended { IfNone result (self.old ≡ []) }
    {
        let first = self.first?;
        self.first = self.others.next();
        Some(first)
    }

    /// Takes out the first entry, if it stands before a key.
    pub(crate) fn next_before(&mut self, key: &Key) -> Option<&'a Entry>
        requires { IsInKeyOrder self.old }
        ensures taken { IfSome result (λ e. self.old ≡ e.now ∷ self.new) }
        ensures before { IfSome result (λ e. key_cmp e.now.key key.now ≡ Less) }
        ensures left { IfNone result (self.new ≡ self.old) }
        ensures ended { IfNone result (below key.now self.new ≡ []) }
    {
        match self.first {
            Some(first) if first.key.cmp(key).is_lt() => self.next(),
            _ => None,
        }
    }

    /// Takes out the entry with a key, if there is one, where none stands before it.
    pub(crate) fn next_at(&mut self, key: &Key) -> Option<&'a Entry>
        requires ordered { IsInKeyOrder self.old }
        requires begins { below key.now self.old ≡ [] }
        ensures found { option_copied result ≡ entry_at self.old key.now }
        ensures left { self.new ≡ above key.now self.old }
    {
        match self.first {
            Some(first) if first.key == *key => self.next(),
            _ => None,
        }
    }
}
