ghost use Rattle.std.specs.Prelude.{◌≡◌, IfOk};

use net_base::{Items, NoMemory, Text, TryCopy};
use std::alloc::Global;

/// What a map has an entry under.
#[derive(Debug, Drop)]
pub enum Key {
    Int(i128),
    Text(Text),
}

/// One entry of a map.
#[cycle(tree)]
#[derive(Debug, Drop)]
pub struct Pair {
    pub key: Key,
    pub value: Tree,
}

/// What a YAML text spells.
#[cycle(tree)]
#[derive(Debug, Drop)]
pub enum Tree {
    Null,
    Bool(bool),
    Int(i128),
    Text(Text),
    List(Items<Tree>),
    Map(Items<Pair>),
}

/// The items of a list.
pub type Trees = Items<Tree>;

/// The entries of a map, in the order of the text.
pub type Pairs = Items<Pair>;

impl TryCopy for Key {
    fn copy(&self, alloc: Global) -> Result<Key, NoMemory> {
        match self {
            Key::Int(n) => Ok(Key::Int(*n)),
            Key::Text(text) => Ok(Key::Text(text.copy(alloc)?)),
        }
    }
}

#[cycle(tree)]
fn copy_tree(tree: &Tree, alloc: Global) -> Result<Tree, NoMemory>
    ensures { IfOk result (λ made. made ≡ tree.now) }
{
    match tree {
        Tree::Null => Ok(Tree::Null),
        Tree::Bool(b) => Ok(Tree::Bool(*b)),
        Tree::Int(n) => Ok(Tree::Int(*n)),
        Tree::Text(text) => Ok(Tree::Text(text.copy(alloc)?)),
        Tree::List(items) => Ok(Tree::List(copy_trees(items.as_slice(), alloc)?)),
        Tree::Map(pairs) => Ok(Tree::Map(copy_pairs(pairs.as_slice(), alloc)?)),
    }
}

#[cycle(tree)]
fn copy_trees(trees: &[Tree], alloc: Global) -> Result<Items<Tree>, NoMemory>
    ensures { IfOk result (λ made. made ≡ trees.now) }
{
    let mut made = Items::new(alloc);
    for tree in trees {
        made.push(copy_tree(tree, alloc)?)?;
    }
    Ok(made)
}

#[cycle(tree)]
fn copy_pairs(pairs: &[Pair], alloc: Global) -> Result<Items<Pair>, NoMemory>
    ensures { IfOk result (λ made. made ≡ pairs.now) }
{
    let mut made = Items::new(alloc);
    for pair in pairs {
        let key = pair.key.copy(alloc)?;
        let value = copy_tree(&pair.value, alloc)?;
        made.push(Pair { key, value })?;
    }
    Ok(made)
}

impl TryCopy for Tree {
    fn copy(&self, alloc: Global) -> Result<Tree, NoMemory> {
        copy_tree(self, alloc)
    }
}

impl TryCopy for Pair {
    fn copy(&self, alloc: Global) -> Result<Pair, NoMemory> {
        let key = self.key.copy(alloc)?;
        let value = copy_tree(&self.value, alloc)?;
        Ok(Pair { key, value })
    }
}
