ghost use Rattle.std.specs.Prelude.{◌≡◌, List, [], ◌∷◌, ◌++◌, map, IfOk, OnOk};
ghost use Rattle.std.specs.List.{list_any};
ghost use Rattle.std.specs.Option.{option_map};
ghost use Rattle.std.specs.Str.{bytes_eq};
ghost use Rattle.yaml_tree.specs.declared.tree.Key.{Key};
ghost use Rattle.conf_shape.specs.declared.kinds.MapKind.TheVariants.{Interface, Vlan};
ghost use Rattle.conf_shape.specs.declared.kinds.TheConstants.{MOST_PORT_NO, MOST_VID};
ghost use Rattle.conf_shape.specs.Keys.{seen_row, seen_pair, seen_table};
ghost use Rattle.conf_shape.specs.Sections.{map_keys, key_text, is_key, canonical, row_at, spells, given, number_of, row_kind, text_kind, listed_kind, number_or_name, named_kind, named_once, numbered, under_key, is_needed, lacks};
ghost use Rattle.conf_shape.specs.Seen.{HasTexts, IsSeen};

use crate::kinds::{Kind, MOST_PORT_NO, MOST_VID, MapKind, Need, Scalar};
use crate::refused::ConfCause;
use crate::scalars::{is_name, within};
use crate::seen::{Seen, see_name};
use crate::tables::{Row, Table, table_of};
use net_base::{NoMemory, Text};
use std::alloc::Global;
use yaml_tree::{Key, Pair};

/// The text of a key: a whole number stands for its digits.
pub fn key_text(alloc: Global, key: &Key) -> Result<Text, NoMemory>
    ensures { IfOk result (λ text. text ≡ key_text key.now) }
{
    match key {
        Key::Int(n) => {
            let digits = n.to_string(alloc)?;
            Text::from_str(alloc, digits.as_str())
        }
        Key::Text(text) => Text::from_str(alloc, text.as_str()),
    }
}

/// Whether the key is this text; no whole number is.
pub fn is_key(name: &str, key: &Key) -> bool
    ensures { result ≡ is_key name.now key.now }
{
    match key {
        Key::Text(text) => text.as_str() == name,
        Key::Int(_) => false,
    }
}

/// The key that a spelling is of.
fn canonical<'a>(spellings: &[(&'static str, &'static str)], text: &'a str) -> &'a str
    ensures { result.now ≡ canonical (map seen_pair spellings.now) text.now }
{
    for (spelling, key) in spellings {
        if *spelling == text {
            return key;
        }
    }
    text
}

pub fn row_at(name: &str, rows: &[Row]) -> Option<Row>
    ensures { option_map seen_row result ≡ row_at name.now (map seen_row rows.now) }
{
    for row in rows {
        if row.key == name {
            return Some(*row);
        }
    }
    None
}

fn is_listed(text: &str, names: &[&'static str]) -> bool
    ensures { result ≡ list_any (λ name. bytes_eq name text.now) (map (λ name. name.now) names.now) }
{
    for name in names {
        if *name == text {
            return true;
        }
    }
    false
}

/// Whether a key is this one, in any of its spellings.
pub fn spells(spellings: &[(&'static str, &'static str)], name: &str, key: &Key) -> bool
    ensures { result ≡ spells (map seen_pair spellings.now) name.now key.now }
{
    match key {
        Key::Text(text) => canonical(spellings, text.as_str()) == name,
        Key::Int(_) => false,
    }
}

fn is_spelled(spellings: &[(&'static str, &'static str)], name: &str, earlier: &[Pair]) -> bool
    ensures { result ≡ list_any (spells (map seen_pair spellings.now) name.now) (map_keys earlier.now) }
{
    for pair in earlier {
        if spells(spellings, name, &pair.key) {
            return true;
        }
    }
    false
}

/// The number that the map's own key gives is the only one that it may give again.
fn given(number: Option<u64>, kind: Kind) -> Kind
    ensures { result ≡ given number kind }
{
    match (number, kind) {
        (Some(n), Kind::Given { .. }) => Kind::One(Scalar::Number { low: n, high: n }),
        _ => kind,
    }
}

/// The number that the map's own key gives.
pub fn number_of(map: MapKind) -> Option<u64>
    ensures { result ≡ number_of map }
{
    match map {
        MapKind::Interface { number } | MapKind::Vlan { number } => number,
        _ => None,
    }
}

fn row_kind(
    table: &Table,
    number: Option<u64>,
    earlier: &[Pair],
    row: Option<Row>,
) -> Result<Kind, ConfCause>
    ensures { result ≡ row_kind (seen_table table.now) number (map_keys earlier.now) (option_map seen_row row) }
{
    match row {
        None => Err(table.unlisted),
        Some(row) => {
            if is_spelled(table.spellings, row.key, earlier) {
                Err(ConfCause::Duplicate)
            } else {
                Ok(given(number, row.kind))
            }
        }
    }
}

fn text_kind(
    table: &Table,
    number: Option<u64>,
    earlier: &[Pair],
    text: &str,
) -> Result<Kind, ConfCause>
    ensures { result ≡ text_kind (seen_table table.now) number (map_keys earlier.now) text.now }
{
    if is_listed(text, table.left_out) {
        return Err(ConfCause::LeftOut);
    }
    let row = row_at(canonical(table.spellings, text), table.rows);
    row_kind(table, number, earlier, row)
}

fn listed_kind(
    table: &Table,
    number: Option<u64>,
    earlier: &[Pair],
    key: &Key,
) -> Result<Kind, ConfCause>
    ensures { result ≡ listed_kind (seen_table table.now) number (map_keys earlier.now) key.now }
{
    match key {
        Key::Int(_) => Err(table.unlisted),
        Key::Text(text) => text_kind(table, number, earlier, text.as_str()),
    }
}

/// The number that a key gives, or none where it is a name.
fn number_or_name(low: u64, high: u64, key: &Key) -> Result<Option<u64>, ConfCause>
    ensures { result ≡ number_or_name low high key.now }
{
    match key {
        Key::Int(n) => match within(low, high, *n) {
            Some(n) => Ok(Some(n)),
            None => Err(ConfCause::OutOfRange),
        },
        Key::Text(text) if is_name(text.as_str()) => Ok(None),
        Key::Text(_) => Err(ConfCause::OutOfRange),
    }
}

/// What stands under a name that is given once.
fn named_kind(name: &str, map: MapKind) -> Result<Kind, ConfCause>
    ensures { result ≡ named_kind name.now map }
{
    match map {
        MapKind::Acls => Ok(Kind::Maps(MapKind::RuleItem)),
        MapKind::Routers => Ok(Kind::Map(MapKind::Router)),
        _ if is_name(name) => Ok(Kind::Map(MapKind::Datapath)),
        _ => Err(ConfCause::OutOfRange),
    }
}

fn named_once(
    alloc: Global,
    map: MapKind,
    seen: &mut Seen,
    key: &Key,
) -> Result<Result<Kind, ConfCause>, NoMemory>
    ensures kind { (earlier : List Key) → HasTexts seen.old earlier → IfOk result (λ kind. kind ≡ named_once map earlier key.now) }
    ensures more { (earlier : List Key) → HasTexts seen.old earlier → OnOk result (HasTexts seen.new (earlier ++ key.now ∷ [])) }
{
    let name = key_text(alloc, key)?;
    if see_name(alloc, seen, &name)? {
        return Ok(Err(ConfCause::Duplicate));
    }
    Ok(named_kind(name.as_str(), map))
}

/// What stands under a key, behind these entries of the map, or what is wrong with the key. Of a map
/// of names those so far are seen, and from now on this one too.
pub fn under_key(
    alloc: Global,
    map: MapKind,
    earlier: &[Pair],
    seen: &mut Seen,
    key: &Key,
) -> Result<Result<Kind, ConfCause>, NoMemory>
    requires { IsSeen map seen.old (map_keys earlier.now) }
    ensures kind { IfOk result (λ kind. kind ≡ under_key map (map_keys earlier.now) key.now) }
    ensures more { OnOk result (IsSeen map seen.new (map_keys earlier.now ++ key.now ∷ [])) }
{
    match map {
        MapKind::Datapaths | MapKind::Acls | MapKind::Routers => named_once(alloc, map, seen, key),
        MapKind::Interfaces => Ok(interface_kind(key)),
        MapKind::Vlans => Ok(vlan_kind(key)),
        _ => Ok(listed_kind(&table_of(map), number_of(map), earlier, key)),
    }
}

fn interface_kind(key: &Key) -> Result<Kind, ConfCause>
    ensures { result ≡ numbered 1 MOST_PORT_NO Interface key.now }
{
    let number = number_or_name(1, MOST_PORT_NO, key)?;
    Ok(Kind::Map(MapKind::Interface { number }))
}

fn vlan_kind(key: &Key) -> Result<Kind, ConfCause>
    ensures { result ≡ numbered 1 MOST_VID Vlan key.now }
{
    let number = number_or_name(1, MOST_VID, key)?;
    Ok(Kind::Map(MapKind::Vlan { number }))
}

fn has_key(name: &str, pairs: &[Pair]) -> bool
    ensures { result ≡ list_any (is_key name.now) (map_keys pairs.now) }
{
    for pair in pairs {
        if is_key(name, &pair.key) {
            return true;
        }
    }
    false
}

fn is_needed(number: Option<u64>, pairs: &[Pair], need: Need) -> bool
    ensures { result ≡ is_needed number (map_keys pairs.now) need }
{
    match need {
        Need::Always => true,
        Need::UnlessNumbered => number.is_none(),
        Need::UnlessBgp => !has_key("bgp", pairs),
        Need::Never => false,
    }
}

/// Whether a key has to be there and isn't.
pub fn lacks(number: Option<u64>, pairs: &[Pair], row: &Row) -> bool
    ensures { result ≡ lacks number (map_keys pairs.now) (seen_row row.now) }
{
    is_needed(number, pairs, row.need) && !has_key(row.key, pairs)
}
