//! The tree of one file, and what it adds to those gathered before.

ghost use Rattle.std.specs.Prelude.{◌≡◌, ℕ, List, false, None, IfOk, IfErr, IsErrOf};
ghost use Rattle.yaml_subset.specs.Reading.{read_of};
ghost use Rattle.conf_shape.specs.Reads.{entries_of};
ghost use Rattle.conf_gather.specs.Includes.{is_optional};
ghost use Rattle.conf_gather.specs.Files.{ReadsFiles};
ghost use Rattle.conf_gather.specs.Gives.{Gives, GivesTold, IsWithin};
ghost use Rattle.conf_gather.specs.Gathered.{tree_of, text_tree, unread, fault_at, entries_fault, tree_fault, taken, was_reached};

use crate::again::all_given_again;
use crate::grown::{Grown, join};
use crate::include::{Include, Role};
use crate::reached::Reached;
use crate::refused::LoadRefused;
use crate::wrong::{is_document, wrong_entries};
use conf_shape::{ConfCause, ConfFault, as_entries};
use fg_outside::{Files, ReadRefused, read_whole};
use net_base::{NoMemory, Text, TryCopy};
use std::alloc::Global;
use yaml_subset::{YamlRefused, read_yaml};
use yaml_tree::{Pair, Tree};

/// The most bytes of a text of the YAML subset.
const MAX_TEXT: usize = 1_048_576;

/// What was gathered so far: the whole names of the files that were reached, and the entries of
/// the tree.
#[derive(Debug, Drop)]
pub struct Gathered {
    pub reached: Reached,
    pub pairs: Grown,
}

/// Whether a file was reached before.
pub fn was_reached(name: &str, reached: &Reached) -> bool
    ensures { result ≡ was_reached name.now reached.now }
{
    reached.has(name)
}

/// The tree of a file's text.
fn parse_text(alloc: Global, name: &Text, text: &[u8]) -> Result<Option<Tree>, LoadRefused>
    ensures told { Gives result (text_tree name.now (read_of text.now)) }
    ensures needed { IfOk result (λ tree. tree ≡ None → ⊥) }
    ensures within { IfErr result IsWithin }
{
    match read_yaml(alloc, text) {
        Ok(tree) => Ok(Some(tree)),
        Err(YamlRefused::At(fault)) => Err(LoadRefused::Yaml(name.copy(alloc)?, fault)),
        Err(YamlRefused::Memory) => Err(LoadRefused::Memory),
    }
}

/// What is answered where a file has no text: one that may be missing is passed over.
fn unread(include: Include, why: ReadRefused) -> Result<Option<Tree>, LoadRefused>
    ensures { result ≡ unread include why }
{
    match why {
        ReadRefused::Absent if include.role.is_optional() => Ok(None),
        ReadRefused::Absent => Err(LoadRefused::Absent(include.name)),
        ReadRefused::Failed => Err(LoadRefused::Read(include.name)),
        ReadRefused::Memory => Err(LoadRefused::Memory),
    }
}

/// The tree of a file; `None` where it isn't there and may be missing.
pub fn read_tree<F: Files>(
    alloc: Global,
    files: &mut F,
    include: &Include,
) -> Result<Option<Tree>, LoadRefused>
    ensures told { GivesTold (F.contents files.old) result (λ held. tree_of include.now (held include.now.name)) }
    ensures needed { is_optional include.now.role ≡ false → IfOk result (λ tree. tree ≡ None → ⊥) }
    ensures named { (file : List ℕ) → IsErrOf result (LoadRefused.Read file) → file ≡ include.now.name }
    ensures files { ReadsFiles F.contents F.faults F.absences F.refused files.old files.new result }
{
    let copied = include.copy(alloc)?;
    match read_whole(alloc, files, include.name.as_str(), MAX_TEXT + 1) {
        Ok(text) => parse_text(alloc, &include.name, text.as_slice()),
        Err(why) => unread(copied, why),
    }
}

/// A fault at a path, where there is one.
fn fault_at(cause: ConfCause, path: Option<Text>) -> Option<ConfFault>
    ensures { result ≡ fault_at cause path }
{
    match path {
        Some(path) => Some(ConfFault { path, cause }),
        None => None,
    }
}

/// What is wrong with a file's entries: a type, or else a name that was given before.
fn entries_fault(
    alloc: Global,
    role: Role,
    gathered: &Grown,
    pairs: &[Pair],
) -> Result<Option<ConfFault>, NoMemory>
    ensures { IfOk result (λ fault. fault ≡ entries_fault role gathered.now pairs.now) }
{
    let wrong = wrong_entries(alloc, role.is_included(), gathered, pairs)?;
    if wrong.is_some() {
        return Ok(fault_at(ConfCause::WrongType, wrong));
    }
    let again = all_given_again(alloc, gathered, pairs)?;
    Ok(fault_at(ConfCause::Duplicate, again))
}

/// What is wrong with a file's tree.
fn tree_fault(
    alloc: Global,
    role: Role,
    gathered: &Grown,
    tree: &Tree,
) -> Result<Option<ConfFault>, NoMemory>
    ensures { IfOk result (λ fault. fault ≡ tree_fault role gathered.now tree.now) }
{
    if is_document(tree) {
        return entries_fault(alloc, role, gathered, as_entries(tree));
    }
    let whole = Text::from_str(alloc, ".")?;
    Ok(fault_at(ConfCause::WrongType, Some(whole)))
}

/// Joins a file's tree with what was gathered before.
pub fn take_tree(
    alloc: Global,
    include: &Include,
    so_far: Gathered,
    tree: &Tree,
) -> Result<Gathered, LoadRefused>
    ensures told { Gives result (taken include.now so_far tree.now) }
    ensures within { IfErr result IsWithin }
{
    let Gathered { reached, pairs } = so_far;
    if let Some(fault) = tree_fault(alloc, include.role, &pairs, tree)? {
        return Err(LoadRefused::Conf(fault));
    }
    let reached = reached.with(alloc, &include.name)?;
    let pairs = join(alloc, pairs, as_entries(tree))?;
    Ok(Gathered { reached, pairs })
}
