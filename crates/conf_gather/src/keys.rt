//! Keys that include files, and keys of sections.

ghost use Rattle.std.specs.Prelude.{◌≡◌, is_some, IfSome};
ghost use Rattle.conf_gather.specs.Includes.{is_include_key};
ghost use Rattle.conf_gather.specs.WrongTypes.{is_section};
ghost use Rattle.conf_gather.specs.Known.{section_key};

use conf_shape::is_key;
use yaml_tree::Key;

/// What is joined from all files: maps under one key.
#[derive(Clone, Copy, Debug)]
pub enum Section {
    Vlans,
    Dps,
    Acls,
    Routers,
}

pub fn is_include_key(key: &Key) -> bool
    ensures { result ≡ is_include_key key.now }
{
    is_key("include", key) || is_key("include-optional", key)
}

/// The section of a key; of any other key the maps aren't joined.
pub fn section_of(key: &Key) -> Option<Section>
    ensures found { is_some result ≡ is_section key.now }
    ensures key { IfSome result (λ section. key.now ≡ section_key section) }
{
    if is_key("vlans", key) {
        Some(Section::Vlans)
    } else if is_key("dps", key) {
        Some(Section::Dps)
    } else if is_key("acls", key) {
        Some(Section::Acls)
    } else if is_key("routers", key) {
        Some(Section::Routers)
    } else {
        None
    }
}
