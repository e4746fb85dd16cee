//! Texts of configurations with the routes that they take.

use bgp_routes::BgpRoute;
use bgp_texts::text_with;
use net_base::{Ip4, Net4, NoMemory, Text};
use std::alloc::{AllocError, Global};
use test_lines::{unescaped, write_escaped};
use yaml_subset::{YamlRefused, read_yaml};
use yaml_tree::{Key, Tree};

fn key_in(alloc: Global, word: &str) -> Result<Key, NoMemory> {
    match word.strip_prefix('#') {
        Some(number) => Ok(Key::Int(number.parse::<i128>().unwrap_or(0))),
        None => Ok(Key::Text(Text::from_str(alloc, word)?)),
    }
}

fn routes_in(alloc: Global, word: &str) -> Result<Vec<BgpRoute>, NoMemory> {
    let mut routes = Vec::new(alloc);
    for part in word.split(',') {
        let (dst, gw) = part.split_once('>').unwrap_or((part, ""));
        if let (Some(dst), Some(gw)) = (Net4::parse(dst), Ip4::parse(gw)) {
            routes.push(BgpRoute { dst, gw })?;
        }
    }
    Ok(routes)
}

/// The document that an escaped text is; `None` where it is none.
pub fn document_in(alloc: Global, text: &str) -> Result<Option<Tree>, NoMemory> {
    let text = unescaped(alloc, text)?;
    match read_yaml(alloc, text.as_slice()) {
        Ok(tree) => Ok(Some(tree)),
        Err(YamlRefused::At(_)) => Ok(None),
        Err(YamlRefused::Memory) => Err(AllocError),
    }
}

/// Writes a document with the routes that it takes. The text has the key of the VLAN, `#` before one that is a
/// number, the routes, a comma between them and `>` before each gateway, and the document.
pub fn write_text(out: &mut String, alloc: Global, text: &str) -> Result<(), NoMemory> {
    let (key, text) = text.split_once(' ').unwrap_or((text, ""));
    let (routes, text) = text.split_once(' ').unwrap_or((text, ""));
    let Some(document) = document_in(alloc, text)? else {
        return out.push_str("no document");
    };
    let key = key_in(alloc, key)?;
    let routes = routes_in(alloc, routes)?;
    match text_with(alloc, &document, &key, routes.as_slice())? {
        Some(bytes) => match str::from_utf8(bytes.as_slice()) {
            Ok(text) => write_escaped(out, text),
            Err(_) => out.push_str("no UTF-8"),
        },
        None => out.push_str("none"),
    }
}
