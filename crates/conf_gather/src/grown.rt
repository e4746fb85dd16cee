//! The entries that were gathered so far.

ghost use Rattle.std.specs.Prelude.{◌≡◌, false, [], ◌∷◌, ◌++◌, is_some, slice_get, option_and_then, IfOk};
ghost use Rattle.std.specs.Option.{option_copied, option_map};
ghost use Rattle.conf_gather.specs.Joined.{first_in_both, gathered_under, with_more, joined_entry, joined};
ghost use Rattle.conf_gather.specs.Known.{section_key};
ghost use Rattle.conf_gather.specs.WrongTypes.{value_of};

use crate::again::first_known;
use crate::extend::extend_at;
use crate::key_set::KeySet;
use crate::keys::{Section, is_include_key, section_of};
use crate::sections::Sections;
use conf_shape::as_entries;
use net_base::{NoMemory, TryCopy};
use std::alloc::Global;
use std::marker::Model;
use yaml_tree::{Key, Pair, Pairs, Tree};

/// Entries in their order, which contracts see as their list. Whether one of them has a key, what
/// stands under the key of a section, and whether a name was given there, is found by one look each.
#[derive(Debug, Drop)]
pub struct Grown {
    pairs: Pairs,
    keys: KeySet,
    sections: Sections,
}

impl Model for Grown {
    ghost use Rattle.std.specs.Prelude.{List};
    ghost use Rattle.std.specs.Coded.{coded_list};
    ghost use Rattle.yaml_tree.specs.declared.tree.Pair.{Pair};
    ghost use Rattle.yaml_tree.specs.contracts.tree.Pair as pair;
    ghost use Rattle.conf_gather.specs.Known.{AreKeysOf, AreKnown};

    ghost Value = { List Pair };

    ghost coded = { coded_list pair.the_row.coded };

    ghost view = { λ g. g.pairs };

    ghost invariant = { λ g. AreKeysOf g.pairs g.keys × AreKnown g.pairs g.sections };
}

/// What stands at a place.
fn value_at(pairs: &[Pair], at: Option<usize>) -> Option<&Tree>
    ensures { option_copied result ≡ option_map (λ p. p.value) (option_and_then (slice_get pairs.now) at) }
{
    match pairs.get(at?) {
        Some(pair) => Some(&pair.value),
        None => None,
    }
}

impl Grown {
    /// No entry yet.
    pub fn new(alloc: Global) -> Grown
        ensures { result ≡ [] }
    {
        Grown {
            pairs: Pairs::new(alloc),
            keys: KeySet::new(alloc),
            sections: Sections::new(alloc),
        }
    }

    /// Whether one of them has the key.
    pub fn has(&self, key: &Key) -> bool
        ensures { result ≡ is_some (value_of key.now self.now) }
    {
        self.keys.has(key)
    }

    /// What stands under the key of a section.
    pub fn section(&self, section: Section) -> Option<&Tree>
        ensures { option_copied result ≡ value_of (section_key section) self.now }
    {
        value_at(self.pairs.as_slice(), self.sections.of(section).at)
    }

    /// The first of these entries' keys that the section has.
    pub fn first_given<'a>(&self, section: Section, pairs: &'a [Pair]) -> Option<&'a Key>
        ensures { option_copied result ≡ first_in_both (gathered_under (section_key section) self.now) pairs.now }
    {
        first_known(&self.sections.of(section).names, pairs)
    }

    /// The entries themselves.
    pub fn into_pairs(self) -> Pairs
        ensures { result ≡ self }
    {
        let Grown {
            pairs,
            keys: _,
            sections: _,
        } = self;
        pairs
    }

    /// These entries, and one more at their end, whose key is new.
    pub fn with(self, alloc: Global, pair: Pair) -> Result<Grown, NoMemory>
        requires { is_some (value_of pair.key self) ≡ false }
        ensures { IfOk result (λ made. made ≡ self ++ pair ∷ []) }
    {
        let Grown {
            mut pairs,
            mut keys,
            mut sections,
        } = self;
        keys.add(alloc, &pair.key)?;
        if let Some(section) = section_of(&pair.key) {
            sections.grow(alloc, section, pairs.len(), as_entries(&pair.value))?;
        }
        pairs.push(pair)?;
        Ok(Grown {
            pairs,
            keys,
            sections,
        })
    }

    /// These entries, where a section has these entries too.
    pub fn extended(self, alloc: Global, section: Section, more: &[Pair]) -> Result<Grown, NoMemory>
        ensures { IfOk result (λ made. made ≡ with_more (section_key section) more.now self) }
    {
        let Some(place) = self.sections.of(section).at else {
            return Ok(self);
        };
        let Grown {
            pairs,
            keys,
            mut sections,
        } = self;
        sections.grow(alloc, section, place, more)?;
        let pairs = extend_at(alloc, pairs, place, more)?;
        Ok(Grown {
            pairs,
            keys,
            sections,
        })
    }
}

/// Joins an entry with those gathered before.
fn join_entry(alloc: Global, gathered: Grown, pair: &Pair) -> Result<Grown, NoMemory>
    ensures { IfOk result (λ made. made ≡ joined_entry gathered pair.now) }
{
    if is_include_key(&pair.key) {
        return Ok(gathered);
    }
    if !gathered.has(&pair.key) {
        return gathered.with(alloc, pair.copy(alloc)?);
    }
    match section_of(&pair.key) {
        Some(section) => gathered.extended(alloc, section, as_entries(&pair.value)),
        None => Ok(gathered),
    }
}

/// Joins the entries of a file with those gathered before.
pub fn join(alloc: Global, gathered: Grown, pairs: &[Pair]) -> Result<Grown, NoMemory>
    ensures { IfOk result (λ made. made ≡ joined gathered pairs.now) }
{
    let mut all = gathered;
    for pair in pairs {
        all = join_entry(alloc, all, pair)?;
    }
    Ok(all)
}
