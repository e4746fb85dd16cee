//! The entries of a map while it is read.

ghost use Rattle.std.specs.Prelude.{◌≡◌, [], ◌∷◌, ◌++◌, IfOk};
ghost use Rattle.yaml_subset.specs.Entries.{has_key};

use net_base::{Items, NoMemory, Text};
use std::alloc::Global;
use std::collections::BTreeSet;
use std::marker::Model;
use yaml_tree::{Key, Pair, Tree};

/// The entries so far, in the order of the text, which contracts see as their list.
#[derive(Debug, Drop)]
pub struct Entries {
    pairs: Items<Pair>,
    ints: BTreeSet<i128>,
    texts: BTreeSet<String>,
}

impl Model for Entries {
    ghost use Rattle.std.specs.Prelude.{List};
    ghost use Rattle.yaml_tree.specs.declared.tree.Pair.{Pair};
    ghost use Rattle.std.specs.Coded.{coded_list};
    ghost use Rattle.yaml_tree.specs.contracts.tree.Pair as pair;
    ghost use Rattle.yaml_subset.specs.Seen.{HaveKeys};

    ghost Value = { List Pair };

    ghost coded = { coded_list pair.the_row.coded };

    ghost view = { λ e. e.pairs };

    ghost invariant = { λ e. HaveKeys e.pairs e.ints e.texts };
}

impl Entries {
    /// No entry yet.
    #[tactic(auto, unfolding(crate::specs::Entries::has_key))]
    pub fn new(alloc: Global) -> Entries
        ensures { result ≡ [] }
    {
        Entries {
            pairs: Items::new(alloc),
            ints: BTreeSet::new(alloc),
            texts: BTreeSet::new(alloc),
        }
    }

    /// Whether one of the entries has the key.
    pub fn has(&self, key: &Key) -> bool
        ensures { result ≡ has_key self.now key.now }
    {
        match key {
            Key::Int(n) => self.ints.contains(n),
            Key::Text(text) => self.texts.contains(text.as_str()),
        }
    }

    /// These entries, and one more at their end.
    pub fn with(self, alloc: Global, key: Key, value: Tree) -> Result<Entries, NoMemory>
        ensures { IfOk result (λ e. e ≡ self ++ (record { key = key; value = value }) ∷ []) }
    {
        match key {
            Key::Int(n) => self.with_int(n, value),
            Key::Text(text) => self.with_text(alloc, text, value),
        }
    }

    fn with_int(self, n: i128, value: Tree) -> Result<Entries, NoMemory>
        ensures { IfOk result (λ e. e ≡ self ++ (record { key = Key.Int n; value = value }) ∷ []) }
    {
        let Entries {
            mut pairs,
            mut ints,
            texts,
        } = self;
        ints.insert(n)?;
        let key = Key::Int(n);
        pairs.push(Pair { key, value })?;
        Ok(Entries { pairs, ints, texts })
    }

    fn with_text(self, alloc: Global, text: Text, value: Tree) -> Result<Entries, NoMemory>
        ensures { IfOk result (λ e. e ≡ self ++ (record { key = Key.Text text; value = value }) ∷ []) }
    {
        let Entries {
            mut pairs,
            ints,
            mut texts,
        } = self;
        let seen = String::from_str(alloc, text.as_str())?;
        texts.insert(seen)?;
        let key = Key::Text(text);
        pairs.push(Pair { key, value })?;
        Ok(Entries { pairs, ints, texts })
    }

    /// The entries themselves.
    pub fn into_pairs(self) -> Items<Pair>
        ensures { result ≡ self }
    {
        let Entries {
            pairs,
            ints: _,
            texts: _,
        } = self;
        pairs
    }
}
