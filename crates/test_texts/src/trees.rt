use net_base::NoMemory;
use yaml_tree::{Key, Pair, Tree};

/// Writes a tree down in one line, with a comma behind each item.
#[cycle(show)]
pub fn write_tree(out: &mut String, tree: &Tree) -> Result<(), NoMemory> {
    match tree {
        Tree::Null => out.push_str("~"),
        Tree::Bool(true) => out.push_str("true"),
        Tree::Bool(false) => out.push_str("false"),
        Tree::Int(n) => write!(out, "{n}"),
        Tree::Text(text) => write!(out, "'{}'", text.as_str()),
        Tree::List(items) => write_items(out, items.as_slice()),
        Tree::Map(pairs) => write_pairs(out, pairs.as_slice()),
    }
}

#[cycle(show)]
fn write_items(out: &mut String, trees: &[Tree]) -> Result<(), NoMemory> {
    out.push_str("[")?;
    for tree in trees {
        write_tree(out, tree)?;
        out.push_str(",")?;
    }
    out.push_str("]")
}

#[cycle(show)]
fn write_pairs(out: &mut String, pairs: &[Pair]) -> Result<(), NoMemory> {
    out.push_str("{")?;
    for pair in pairs {
        match &pair.key {
            Key::Int(n) => write!(out, "{n}: ")?,
            Key::Text(text) => write!(out, "'{}': ", text.as_str())?,
        }
        write_tree(out, &pair.value)?;
        out.push_str(",")?;
    }
    out.push_str("}")
}
