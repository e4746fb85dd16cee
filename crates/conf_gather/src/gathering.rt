ghost use Rattle.std.specs.Prelude.{◌≡◌, Some};
ghost use Rattle.fg_outside.specs.Contents.{Contents};
ghost use Rattle.conf_gather.specs.Files.{ReadsFiles};
ghost use Rattle.conf_gather.specs.Gives.{Gives, GivesTold};
ghost use Rattle.conf_gather.specs.Gathered.{held_by, NamesUnread, each, gather, gathered, gathered_by};

use crate::grown::Grown;
use crate::include::{Include, Role, includes_of};
use crate::reached::Reached;
use crate::refused::LoadRefused;
use crate::take::{Gathered, read_tree, take_tree, was_reached};
use conf_shape::as_entries;
use fg_outside::Files;
use net_base::{Text, TryCopy};
use std::alloc::Global;
use yaml_tree::Tree;

/// The most files that lie one below the other: the main one, and includes that lie 8 deep.
const LEVELS: usize = 9;

/// A file and its includes, depth first, behind what was gathered before.
#[cycle(walk)]
fn gather_file<F: Files>(
    alloc: Global,
    files: &mut F,
    levels: usize,
    include: &Include,
    so_far: Gathered,
) -> Result<Gathered, LoadRefused>
    ensures told { GivesTold (F.contents files.old) result (λ held. gather (held_by held) levels include.now so_far) }
    ensures unread { NamesUnread (F.contents files.old) result (λ finds. gather finds levels include.now so_far) }
    ensures files { ReadsFiles F.contents F.faults F.absences F.refused files.old files.new result }
{
    if was_reached(include.name.as_str(), &so_far.reached) {
        return Err(LoadRefused::IncludeTwice(include.name.copy(alloc)?));
    }
    if levels == 0 {
        return Err(LoadRefused::IncludeDepth(include.name.copy(alloc)?));
    }
    match read_tree(alloc, files, include)? {
        Some(tree) => {
            let so_far = take_tree(alloc, include, so_far, &tree)?;
            let includes = includes_of(alloc, include.name.as_str(), as_entries(&tree))?;
            gather_all(alloc, files, levels - 1, includes.as_slice(), so_far)
        }
        None => Ok(so_far),
    }
}

/// Files one after the other, each with its includes.
#[cycle(walk)]
fn gather_all<F: Files>(
    alloc: Global,
    files: &mut F,
    levels: usize,
    includes: &[Include],
    so_far: Gathered,
) -> Result<Gathered, LoadRefused>
    ensures told { GivesTold (F.contents files.old) result (λ held. each (gather (held_by held) levels) includes.now so_far) }
    ensures unread { NamesUnread (F.contents files.old) result (λ finds. each (gather finds levels) includes.now so_far) }
    ensures files { ReadsFiles F.contents F.faults F.absences F.refused files.old files.new result }
{
    let mut all = so_far;
    for include in includes {
        all = gather_file(alloc, files, levels, include, all)?;
    }
    Ok(all)
}

/// The tree of a configuration file with all that it includes, depth first, the files under `include`
/// before those under `include-optional`. The sections `vlans`, `dps`, `acls` and `routers` of all files
/// are joined in this order; of any other key the first file's value counts.
///
/// `IncludeTwice` where a file is reached again, else `IncludeDepth` where it lies more than 8 includes
/// deep, else `Read` or `Absent` where it can't be read or has to be there and isn't, else `Yaml`, else
/// `Conf` with `WrongType` for a document, an include list or an included section of a wrong type, else
/// `Conf` with `Duplicate` for a name of a section that another file gave. The first of these that is
/// met decides.
pub fn gather<F: Files>(alloc: Global, files: &mut F, name: &str) -> Result<Tree, LoadRefused>
    ensures told { (held : Contents) → F.contents files.old ≡ Some held → Gives result (gathered (held 0) name.now) }
    ensures unread { NamesUnread (F.contents files.old) result (λ finds. gathered_by finds name.now) }
    ensures files { ReadsFiles F.contents F.faults F.absences F.refused files.old files.new result }
{
    let main = Include {
        name: Text::from_str(alloc, name)?,
        role: Role::Main,
    };
    let nothing = Gathered {
        reached: Reached::new(alloc),
        pairs: Grown::new(alloc),
    };
    let all = gather_file(alloc, files, LEVELS, &main, nothing)?;
    Ok(Tree::Map(all.pairs.into_pairs()))
}
