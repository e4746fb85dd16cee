ghost use Rattle.std.specs.Prelude.{◌≡◌, [], ◌++◌, map, IfOk, OnOk, codes};
ghost use Rattle.std.specs.Option.{option_map_or};
ghost use Rattle.conf_shape.specs.Reads.{value_at, items_of, list_at, words_of};
ghost use Rattle.conf_gather.specs.Includes.{is_included, is_optional, included_as, includes_of};

use crate::names::whole_name;
use conf_shape::{as_words, value_at};
use net_base::{Items, NoMemory, Text, TryCopy};
use std::alloc::Global;
use yaml_tree::{Pair, Tree};

/// How a file comes to be read.
#[derive(Clone, Copy, Debug)]
pub enum Role {
    /// It is the one that was asked for.
    Main,
    /// Another file includes it.
    Needed,
    /// Another file includes it, and it may be missing.
    Optional,
}

impl Role {
    pub fn is_included(self) -> bool
        ensures { result ≡ is_included self }
    {
        match self {
            Role::Main => false,
            Role::Needed | Role::Optional => true,
        }
    }

    pub fn is_optional(self) -> bool
        ensures { result ≡ is_optional self }
    {
        match self {
            Role::Main | Role::Needed => false,
            Role::Optional => true,
        }
    }
}

/// A file that is to be read, by its whole name.
#[derive(Debug, Drop)]
pub struct Include {
    pub name: Text,
    pub role: Role,
}

impl TryCopy for Include {
    fn copy(&self, alloc: Global) -> Result<Include, NoMemory> {
        Ok(Include {
            name: self.name.copy(alloc)?,
            role: self.role,
        })
    }
}

/// Files that are to be read, in order.
pub type Includes = Items<Include>;

/// The items of the list under a key; none where there is no list.
fn items_at<'a>(pairs: &'a [Pair], key: &str) -> &'a [Tree]
    ensures { result.now ≡ option_map_or items_of (value_at key.now pairs.now) [] }
{
    match value_at(pairs, key) {
        Some(Tree::List(items)) => items.as_slice(),
        _ => &[],
    }
}

/// Adds the files that a list names.
fn push_listed(
    alloc: Global,
    made: &mut Includes,
    role: Role,
    including: &str,
    items: &[Tree],
) -> Result<(), NoMemory>
    ensures { OnOk result (made.new ≡ made.old ++ map (included_as role including.now) (map words_of items.now)) }
{
    for item in items {
        let name = whole_name(alloc, including, as_words(item))?;
        made.push(Include { name, role })?;
    }
    Ok(())
}

/// The files that a file with these entries includes: those under `include`, and then those under
/// `include-optional`.
pub fn includes_of(alloc: Global, including: &str, pairs: &[Pair]) -> Result<Includes, NoMemory>
    ensures { IfOk result (λ made. made ≡ includes_of including.now pairs.now) }
{
    let mut made = Includes::new(alloc);
    let needed = items_at(pairs, "include");
    push_listed(alloc, &mut made, Role::Needed, including, needed)?;
    let optional = items_at(pairs, "include-optional");
    push_listed(alloc, &mut made, Role::Optional, including, optional)?;
    Ok(made)
}
