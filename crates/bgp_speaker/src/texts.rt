ghost use Rattle.std.specs.Prelude.{◌≡◌, unwrap_or, IfOk, OnOk};
ghost use Rattle.bgp_speaker.specs.Texts.{begun, followed, new_text, news, text_for};

use crate::same::are_same;
use bgp_routes::BgpRoute;
use bgp_texts::text_with;
use net_base::{Bytes, Items, NoMemory, TryCopy};
use std::alloc::Global;
use std::marker::Model;
use yaml_subset::print_yaml;
use yaml_tree::{Key, Tree};

/// The texts of a document with routes behind those of a VLAN. Contracts see the document, the VLAN's key and the
/// last text.
#[derive(Drop)]
pub struct Texts {
    vlan: Option<Key>,
    tree: Tree,
    last: Bytes,
    /// The routes that were looked at last.
    routes: Items<BgpRoute>,
}

impl Model for Texts {
    ghost use Rattle.std.specs.Prelude.{◌≡◌, ℕ, List, Some};
    ghost use Rattle.std.specs.Coded.{codes};
    ghost use Rattle.yaml_tree.specs.contracts.tree.Tree as document;
    ghost use Rattle.bgp_speaker.specs.Texts.{Kept, text_for};

    ghost Value = { Kept };

    ghost coded = { Prim.hlevel (codes, document.the_row.coded) };

    ghost view = { λ t. record { vlan = t.vlan; tree = t.tree; last = t.last } };

    ghost invariant = { λ t. (text : List ℕ) → text_for t.vlan t.tree t.routes ≡ Some text → text ≡ t.last };
}

/// The text with these routes, where it gives a configuration.
fn text_for(
    alloc: Global,
    vlan: &Option<Key>,
    tree: &Tree,
    routes: &[BgpRoute],
) -> Result<Option<Bytes>, NoMemory>
    ensures { IfOk result (λ text. text ≡ text_for vlan.now tree.now routes.now) }
{
    match vlan {
        Some(vlan) => text_with(alloc, tree, vlan, routes),
        None => Ok(None),
    }
}

/// A text that isn't the last one.
fn news(text: Option<Bytes>, last: &Bytes) -> Option<Bytes>
    ensures { result ≡ news last.now text }
{
    match text {
        Some(text) => {
            if text.as_slice() == last.as_slice() {
                None
            } else {
                Some(text)
            }
        }
        None => None,
    }
}

fn last_of(alloc: Global, text: &Option<Bytes>, last: &Bytes) -> Result<Bytes, NoMemory>
    ensures { IfOk result (λ made. made ≡ unwrap_or text.now last.now) }
{
    match text {
        Some(text) => text.copy(alloc),
        None => last.copy(alloc),
    }
}

impl Texts {
    /// Of this document and the VLAN under this key, where it has one; the last text is that of the document.
    pub fn new(alloc: Global, vlan: Option<Key>, tree: Tree) -> Result<Texts, NoMemory>
        ensures { IfOk result (λ made. made ≡ begun vlan tree) }
    {
        let last = print_yaml(alloc, &tree)?;
        Ok(Texts {
            vlan,
            tree,
            last,
            routes: Items::new(alloc),
        })
    }

    /// The text with these routes, where it gives a configuration and isn't the last one. After `NoMemory` nothing
    /// changed.
    pub fn follow(&mut self, alloc: Global, routes: &[BgpRoute]) -> Result<Option<Bytes>, NoMemory>
        ensures text { IfOk result (λ text. text ≡ new_text self.old routes.now) }
        ensures next { OnOk result (self.new ≡ followed self.old routes.now) }
    {
        if are_same(routes, self.routes.as_slice()) {
            return Ok(None);
        }
        let kept = Items::from_slice(alloc, routes)?;
        let made = text_for(alloc, &self.vlan, &self.tree, routes)?;
        let text = news(made, &self.last);
        let last = last_of(alloc, &text, &self.last)?;
        self.routes = kept;
        self.last = last;
        Ok(text)
    }
}
