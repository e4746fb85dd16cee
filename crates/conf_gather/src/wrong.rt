//! What of a file is of a wrong type.

ghost use Rattle.std.specs.Prelude.{◌≡◌, ◌++◌, ◌∷◌, IfOk, Some};
ghost use Rattle.std.specs.Option.{option_map};
ghost use Rattle.std.specs.Fmt.{decimal};
ghost use Rattle.conf_shape.specs.Sections.{key_text};
ghost use Rattle.yaml_tree.specs.declared.tree.Tree.{out-Tree};
ghost use Rattle.conf_gather.specs.Known.{section_key};
ghost use Rattle.conf_gather.specs.WrongTypes.{is_map_in, is_document, fits, section_fits, is_text_in, place_of_no_text, no_names, wrong_entry, wrong_entries};

use crate::grown::Grown;
use crate::keys::{Section, is_include_key, section_of};
use conf_shape::{is_key, key_text};
use net_base::{NoMemory, Text};
use std::alloc::Global;
use yaml_tree::{Key, Pair, Tree};

/// Whether it is a map, or where it may, nothing, which stands for a map with no entry.
fn is_map(may_be_null: bool, tree: &Tree) -> bool
    ensures { result ≡ is_map_in may_be_null (out-Tree tree.now) }
{
    match tree {
        Tree::Null => may_be_null,
        Tree::Map(_) => true,
        _ => false,
    }
}

/// Whether a document is a map or nothing.
pub fn is_document(tree: &Tree) -> bool
    ensures { result ≡ is_document tree.now }
{
    is_map(true, tree)
}

fn fits(key: &Key, tree: &Tree) -> bool
    ensures { result ≡ fits key.now tree.now }
{
    is_map(!is_key("dps", key), tree)
}

/// Whether a section is of the right type, and what was gathered of it.
fn section_fits(gathered: &Grown, section: Section, pair: &Pair) -> bool
    requires { pair.now.key ≡ section_key section }
    ensures { result ≡ section_fits gathered.now pair.now }
{
    if !fits(&pair.key, &pair.value) {
        return false;
    }
    match gathered.section(section) {
        Some(tree) => fits(&pair.key, tree),
        None => true,
    }
}

fn is_text(tree: &Tree) -> bool
    ensures { result ≡ is_text_in (out-Tree tree.now) }
{
    matches!(tree, Tree::Text(_))
}

/// The place of the first item that is no text.
fn place_of_no_text(items: &[Tree]) -> Option<usize>
    ensures { result ≡ place_of_no_text 0 items.now }
{
    for (i, item) in items.iter().enumerate() {
        if !is_text(item) {
            return Some(i);
        }
    }
    None
}

/// The path with a place behind it.
fn with_place(alloc: Global, mut path: Text, place: usize) -> Result<Text, NoMemory>
    ensures { IfOk result (λ made. made ≡ path ++ 46 ∷ decimal place) }
{
    let digits = place.to_string(alloc)?;
    path.append(".")?;
    path.append(digits.as_str())?;
    Ok(path)
}

/// Where a value isn't a list of texts.
fn no_names(alloc: Global, path: Text, tree: &Tree) -> Result<Option<Text>, NoMemory>
    ensures { IfOk result (λ found. found ≡ no_names path tree.now) }
{
    match tree {
        Tree::List(items) => match place_of_no_text(items.as_slice()) {
            Some(place) => Ok(Some(with_place(alloc, path, place)?)),
            None => Ok(None),
        },
        _ => Ok(Some(path)),
    }
}

/// Where an entry is of a wrong type.
fn wrong_entry(
    alloc: Global,
    included: bool,
    gathered: &Grown,
    pair: &Pair,
) -> Result<Option<Text>, NoMemory>
    ensures { IfOk result (λ found. found ≡ wrong_entry included gathered.now pair.now) }
{
    if is_include_key(&pair.key) {
        return no_names(alloc, key_text(alloc, &pair.key)?, &pair.value);
    }
    match section_of(&pair.key) {
        Some(section) if included && !section_fits(gathered, section, pair) => {
            Ok(Some(key_text(alloc, &pair.key)?))
        }
        _ => Ok(None),
    }
}

/// The path of the first entry that is of a wrong type: an include list that isn't a list of texts,
/// or in an included file a section that is no map, in that file or as it was gathered before.
pub fn wrong_entries(
    alloc: Global,
    included: bool,
    gathered: &Grown,
    pairs: &[Pair],
) -> Result<Option<Text>, NoMemory>
    ensures { IfOk result (λ found. found ≡ wrong_entries included gathered.now pairs.now) }
{
    for pair in pairs {
        if let Some(path) = wrong_entry(alloc, included, gathered, pair)? {
            return Ok(Some(path));
        }
    }
    Ok(None)
}
