ghost use Rattle.std.specs.Prelude.{◌≡◌, Some, IfErr};
ghost use Rattle.fg_outside.specs.Contents.{Contents};
ghost use Rattle.yaml_tree.specs.declared.tree.Tree.{Tree};
ghost use Rattle.conf_check.specs.Accepted.{IsRefused};
ghost use Rattle.conf_gather.specs.Files.{ReadsFiles};
ghost use Rattle.conf_gather.specs.Gives.{Fails, Gives, IsWithin};
ghost use Rattle.conf_gather.specs.Gathered.{NamesUnread};
ghost use Rattle.conf_load.specs.Loaded.{checked, loaded, loaded_by, loaded_with_text, loaded_with_text_by};

use conf_check::conf_of_tree;
use conf_gather::{LoadRefused, gather};
use conf_shape::ConfRefused;
use conf_types::Conf;
use fg_outside::Files;
use net_base::Bytes;
use std::alloc::Global;
use yaml_subset::print_yaml;
use yaml_tree::Tree;

fn refusal(refused: ConfRefused) -> LoadRefused
    ensures told { (t : Tree) → IsRefused t refused → Fails result (checked t) }
    ensures within { IsWithin result }
{
    match refused {
        ConfRefused::At(fault) => LoadRefused::Conf(fault),
        ConfRefused::Memory => LoadRefused::Memory,
    }
}

/// The configuration of a gathered document; refused with `Conf` for its first fault.
pub fn check_tree(alloc: Global, tree: &Tree) -> Result<Conf, LoadRefused>
    ensures told { Gives result (checked tree.now) }
    ensures within { IfErr result IsWithin }
{
    match conf_of_tree(alloc, tree) {
        Ok(conf) => Ok(conf),
        Err(refused) => Err(refusal(refused)),
    }
}

/// The configuration of a file with all that it includes (`conf_gather::gather`).
///
/// Refused as gathering is, and with `Conf` for the first fault of the gathered document: of its
/// shape, or else the first rule that is broken.
pub fn load<F: Files>(alloc: Global, files: &mut F, name: &str) -> Result<Conf, LoadRefused>
    ensures told { (held : Contents) → F.contents files.old ≡ Some held → Gives result (loaded (held 0) name.now) }
    ensures unread { NamesUnread (F.contents files.old) result (λ finds. loaded_by finds name.now) }
    ensures files { ReadsFiles F.contents F.faults F.absences F.refused files.old files.new result }
{
    let tree = gather(alloc, files, name)?;
    check_tree(alloc, &tree)
}

/// The same (`load`), with the canonical text of the document that was gathered.
pub fn load_with_text<F: Files>(
    alloc: Global,
    files: &mut F,
    name: &str,
) -> Result<(Conf, Bytes), LoadRefused>
    ensures told { (held : Contents) → F.contents files.old ≡ Some held → Gives result (loaded_with_text (held 0) name.now) }
    ensures unread { NamesUnread (F.contents files.old) result (λ finds. loaded_with_text_by finds name.now) }
    ensures files { ReadsFiles F.contents F.faults F.absences F.refused files.old files.new result }
{
    let tree = gather(alloc, files, name)?;
    let conf = check_tree(alloc, &tree)?;
    let text = print_yaml(alloc, &tree)?;
    Ok((conf, text))
}
