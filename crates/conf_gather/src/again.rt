//! Names that two files give.

ghost use Rattle.std.specs.Prelude.{◌≡◌, ◌++◌, ◌∷◌, List, IfOk};
ghost use Rattle.std.specs.Option.{option_copied};
ghost use Rattle.yaml_tree.specs.declared.tree.Pair.{Pair};
ghost use Rattle.conf_shape.specs.Sections.{key_text};
ghost use Rattle.conf_gather.specs.Known.{AreKeysOf};
ghost use Rattle.conf_gather.specs.Joined.{first_in_both, given_again, all_given_again};

use crate::grown::Grown;
use crate::key_set::KeySet;
use crate::keys::section_of;
use conf_shape::{as_entries, key_text};
use net_base::{NoMemory, Text};
use std::alloc::Global;
use yaml_tree::{Key, Pair};

/// The first of these entries' keys that is known.
pub fn first_known<'a>(known: &KeySet, pairs: &'a [Pair]) -> Option<&'a Key>
    ensures { (before : List Pair) → AreKeysOf before known.now → option_copied result ≡ first_in_both before pairs.now }
{
    for pair in pairs {
        if known.has(&pair.key) {
            return Some(&pair.key);
        }
    }
    None
}

/// The path of a key below another.
fn path_below(alloc: Global, above: &Key, key: &Key) -> Result<Text, NoMemory>
    ensures { IfOk result (λ path. path ≡ key_text above.now ++ 46 ∷ key_text key.now) }
{
    let mut path = key_text(alloc, above)?;
    let last = key_text(alloc, key)?;
    path.append(".")?;
    path.append(last.as_str())?;
    Ok(path)
}

/// Where a section gives a name that was given before.
fn given_again(alloc: Global, gathered: &Grown, pair: &Pair) -> Result<Option<Text>, NoMemory>
    ensures { IfOk result (λ found. found ≡ given_again gathered.now pair.now) }
{
    let Some(section) = section_of(&pair.key) else {
        return Ok(None);
    };
    match gathered.first_given(section, as_entries(&pair.value)) {
        Some(key) => Ok(Some(path_below(alloc, &pair.key, key)?)),
        None => Ok(None),
    }
}

/// The path of the first name of a section that was given before, keys being compared as keys of
/// the tree.
pub fn all_given_again(
    alloc: Global,
    gathered: &Grown,
    pairs: &[Pair],
) -> Result<Option<Text>, NoMemory>
    ensures { IfOk result (λ found. found ≡ all_given_again gathered.now pairs.now) }
{
    for pair in pairs {
        if let Some(path) = given_again(alloc, gathered, pair)? {
            return Ok(Some(path));
        }
    }
    Ok(None)
}
