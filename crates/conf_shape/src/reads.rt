ghost use Rattle.std.specs.Prelude.{◌≡◌, ◌-◌, ◌^◌, map, option_and_then, IfOk};
ghost use Rattle.std.specs.Option.{option_copied};
ghost use Rattle.conf_shape.specs.declared.kinds.TheConstants.{MOST_PORT_NO, MOST_VID};
ghost use Rattle.conf_shape.specs.Scalars.{within};
ghost use Rattle.conf_shape.specs.Keys.{seen_default};
ghost use Rattle.yaml_tree.specs.declared.tree.Tree.{Tree};
ghost use Rattle.yaml_tree.specs.declared.tree.Pair.{Pair};
ghost use Rattle.conf_shape.specs.Reads.{value_at, flag_of, permission_of, number_of, text_of, words_of, items_of, entries_of, one_or_list_of, words_at, entries_at, option_at, list_at, one_or_list_at, number_under, default_of, default_flag, default_number, default_text, flag_at, permission_at, number_at, text_at, label_of, port_of, vlan_of, own_number};

use crate::keys::{is_key, row_at};
use crate::kinds::{DefaultValue, MOST_PORT_NO, MOST_VID, MapKind};
use crate::raw::{OneOrList, VlanRef};
use crate::scalars::within;
use crate::tables::table_of;
use conf_types::PortRef;
use net_base::{Items, NoMemory, PortNo, Text, Vid};
use std::alloc::Global;
use yaml_tree::{Key, Pair, Tree};

/// What stands under a key that is a text.
pub fn value_at<'a>(pairs: &'a [Pair], name: &str) -> Option<&'a Tree>
    ensures { option_copied result ≡ value_at name.now pairs.now }
{
    for pair in pairs {
        if is_key(name, &pair.key) {
            return Some(&pair.value);
        }
    }
    None
}

fn as_flag(tree: &Tree) -> Option<bool>
    ensures { result ≡ flag_of tree.now }
{
    match tree {
        Tree::Bool(flag) => Some(*flag),
        _ => None,
    }
}

/// A flag, or 1 or 0.
fn as_permission(tree: &Tree) -> Option<bool>
    ensures { result ≡ permission_of tree.now }
{
    match tree {
        Tree::Bool(flag) => Some(*flag),
        Tree::Int(n) => match within(0, 1, *n) {
            Some(n) => Some(n == 1),
            None => None,
        },
        _ => None,
    }
}

/// A whole number from `low` to `high`.
fn as_number(tree: &Tree, low: u64, high: u64) -> Option<u64>
    ensures { result ≡ number_of low high tree.now }
{
    match tree {
        Tree::Int(n) => within(low, high, *n),
        _ => None,
    }
}

/// A whole number of 16 bits.
fn as_u16(tree: &Tree) -> Option<u16>
    ensures { result ≡ number_of 0 (2 ^ 16 - 1) tree.now }
{
    u16::try_from(as_number(tree, 0, 0xffff)?).ok()
}

/// A whole number of 32 bits.
fn as_u32(tree: &Tree) -> Option<u32>
    ensures { result ≡ number_of 0 (2 ^ 32 - 1) tree.now }
{
    u32::try_from(as_number(tree, 0, 0xffff_ffff)?).ok()
}

fn as_text(tree: &Tree) -> Option<&str>
    ensures { option_copied result ≡ text_of tree.now }
{
    match tree {
        Tree::Text(text) => Some(text.as_str()),
        _ => None,
    }
}

/// The text, or an empty one.
pub fn as_words(tree: &Tree) -> &str
    ensures { result.now ≡ words_of tree.now }
{
    match as_text(tree) {
        Some(text) => text,
        None => "",
    }
}

/// The items of a list; none of anything else.
pub fn as_items(tree: &Tree) -> &[Tree]
    ensures { result.now ≡ items_of tree.now }
{
    match tree {
        Tree::List(items) => items.as_slice(),
        _ => &[],
    }
}

/// The entries of a map; none of anything else.
pub fn as_entries(tree: &Tree) -> &[Pair]
    ensures { result.now ≡ entries_of tree.now }
{
    match tree {
        Tree::Map(pairs) => pairs.as_slice(),
        _ => &[],
    }
}

/// What stands where a key isn't given.
#[tactic(auto, unfolding(crate::specs::Reads::default_of))]
fn default_of(map: MapKind, name: &str) -> DefaultValue
    ensures { seen_default result ≡ default_of map name.now }
{
    match row_at(name, table_of(map).rows) {
        Some(row) => row.default,
        None => DefaultValue::Nothing,
    }
}

fn default_flag(default: DefaultValue) -> bool
    ensures { result ≡ default_flag (seen_default default) }
{
    matches!(default, DefaultValue::On)
}

fn default_number(default: DefaultValue) -> u32
    ensures { result ≡ default_number (seen_default default) }
{
    match default {
        DefaultValue::Count(n) => n,
        _ => 0,
    }
}

fn default_text<'a>(own: &'a str, default: DefaultValue) -> &'a str
    ensures { result.now ≡ default_text own.now (seen_default default) }
{
    match default {
        DefaultValue::Spelled(text) => text,
        DefaultValue::OwnKey | DefaultValue::OwnName => own,
        _ => "",
    }
}

/// The text under a key, or an empty one.
pub fn words_at<'a>(pairs: &'a [Pair], name: &str) -> &'a str
    ensures { result.now ≡ words_at name.now pairs.now }
{
    match value_at(pairs, name) {
        Some(tree) => as_words(tree),
        None => "",
    }
}

/// The entries of the map under a key.
pub fn entries_at<'a>(pairs: &'a [Pair], name: &str) -> &'a [Pair]
    ensures { result.now ≡ entries_at name.now pairs.now }
{
    match value_at(pairs, name) {
        Some(tree) => as_entries(tree),
        None => &[],
    }
}

fn given_flag(pairs: &[Pair], name: &str) -> Option<bool>
    ensures { result ≡ option_and_then flag_of (value_at name.now pairs.now) }
{
    as_flag(value_at(pairs, name)?)
}

/// The flag under a key, or its default.
pub fn flag_at(map: MapKind, pairs: &[Pair], name: &str) -> bool
    ensures { result ≡ flag_at map name.now pairs.now }
{
    match given_flag(pairs, name) {
        Some(flag) => flag,
        None => default_flag(default_of(map, name)),
    }
}

fn given_permission(pairs: &[Pair], name: &str) -> Option<bool>
    ensures { result ≡ option_and_then permission_of (value_at name.now pairs.now) }
{
    as_permission(value_at(pairs, name)?)
}

/// The permission under a key, or its default.
pub fn permission_at(map: MapKind, pairs: &[Pair], name: &str) -> bool
    ensures { result ≡ permission_at map name.now pairs.now }
{
    match given_permission(pairs, name) {
        Some(flag) => flag,
        None => default_flag(default_of(map, name)),
    }
}

/// The whole number of 64 bits under a key.
pub fn u64_under(pairs: &[Pair], name: &str) -> Option<u64>
    ensures { result ≡ number_under 64 name.now pairs.now }
{
    as_number(value_at(pairs, name)?, 0, u64::MAX)
}

/// The whole number of 32 bits under a key.
pub fn u32_under(pairs: &[Pair], name: &str) -> Option<u32>
    ensures { result ≡ number_under 32 name.now pairs.now }
{
    as_u32(value_at(pairs, name)?)
}

/// The whole number of 16 bits under a key.
pub fn u16_under(pairs: &[Pair], name: &str) -> Option<u16>
    ensures { result ≡ number_under 16 name.now pairs.now }
{
    as_u16(value_at(pairs, name)?)
}

/// The number under a key, or its default.
pub fn number_at(map: MapKind, pairs: &[Pair], name: &str) -> u32
    ensures { result ≡ number_at map name.now pairs.now }
{
    match u32_under(pairs, name) {
        Some(n) => n,
        None => default_number(default_of(map, name)),
    }
}

fn given_text<'a>(pairs: &'a [Pair], name: &str) -> Option<&'a str>
    ensures { option_copied result ≡ option_and_then text_of (value_at name.now pairs.now) }
{
    as_text(value_at(pairs, name)?)
}

/// The text under a key, or its default; `own` is what stands for the map's own key or name, where
/// that is the default.
pub fn text_at<'a>(map: MapKind, pairs: &'a [Pair], name: &str, own: &'a str) -> &'a str
    ensures { result.now ≡ text_at map name.now own.now pairs.now }
{
    match given_text(pairs, name) {
        Some(text) => text,
        None => default_text(own, default_of(map, name)),
    }
}

/// What is read from a tree of the right shape.
pub trait Read {
    /// What a tree gives.
    ghost given_by: { Tree → Self };

    fn read(alloc: Global, tree: &Tree) -> Result<Self, NoMemory>
        ensures { IfOk result (λ made. made ≡ given_by tree.now) };
}

/// What each tree gives, in order.
pub fn read_all<T: Read + Drop>(alloc: Global, trees: &[Tree]) -> Result<Items<T>, NoMemory>
    ensures { IfOk result (λ made. made ≡ map T.given_by trees.now) }
{
    let mut made = Items::new(alloc);
    for tree in trees {
        made.push(T::read(alloc, tree)?)?;
    }
    Ok(made)
}

/// What stands under a key, where it is given.
pub fn option_at<T: Read>(alloc: Global, pairs: &[Pair], name: &str) -> Result<Option<T>, NoMemory>
    ensures { IfOk result (λ made. made ≡ option_at T.given_by name.now pairs.now) }
{
    match value_at(pairs, name) {
        Some(tree) => Ok(Some(T::read(alloc, tree)?)),
        None => Ok(None),
    }
}

/// The items of the list under a key.
pub fn list_at<T: Read + Drop>(
    alloc: Global,
    pairs: &[Pair],
    name: &str,
) -> Result<Items<T>, NoMemory>
    ensures { IfOk result (λ made. made ≡ list_at T.given_by name.now pairs.now) }
{
    match value_at(pairs, name) {
        Some(tree) => read_all(alloc, as_items(tree)),
        None => Ok(Items::new(alloc)),
    }
}

fn one_or_list<T: Read + Drop>(alloc: Global, tree: &Tree) -> Result<OneOrList<T>, NoMemory>
    ensures { IfOk result (λ made. made ≡ one_or_list_of T.given_by tree.now) }
{
    match tree {
        Tree::List(items) => Ok(OneOrList::List(read_all(alloc, items.as_slice())?)),
        _ => Ok(OneOrList::One(T::read(alloc, tree)?)),
    }
}

/// What stands under a key, alone or as a list.
pub fn one_or_list_at<T: Read + Drop>(
    alloc: Global,
    pairs: &[Pair],
    name: &str,
) -> Result<OneOrList<T>, NoMemory>
    ensures { IfOk result (λ made. made ≡ one_or_list_at T.given_by name.now pairs.now) }
{
    match value_at(pairs, name) {
        Some(tree) => one_or_list(alloc, tree),
        None => Ok(OneOrList::List(Items::new(alloc))),
    }
}

/// What is read from an entry of a map.
pub trait ReadEntry {
    /// What an entry gives.
    ghost given_by: { Pair → Self };

    fn read(alloc: Global, pair: &Pair) -> Result<Self, NoMemory>
        ensures { IfOk result (λ made. made ≡ given_by pair.now) };
}

/// What each entry of a map gives, in order.
pub fn read_entries<T: ReadEntry + Drop>(
    alloc: Global,
    pairs: &[Pair],
) -> Result<Items<T>, NoMemory>
    ensures { IfOk result (λ made. made ≡ map T.given_by pairs.now) }
{
    let mut made = Items::new(alloc);
    for pair in pairs {
        made.push(T::read(alloc, pair)?)?;
    }
    Ok(made)
}

/// The items of a list.
impl<T: Read + Drop> Read for Items<T> {
    ghost given_by = { λ tree. map T.given_by (items_of tree) };

    fn read(alloc: Global, tree: &Tree) -> Result<Items<T>, NoMemory> {
        read_all(alloc, as_items(tree))
    }
}

/// The name of an ACL: a whole number stands for its digits.
impl Read for Text {
    ghost given_by = { label_of };

    fn read(alloc: Global, tree: &Tree) -> Result<Text, NoMemory> {
        match tree {
            Tree::Text(text) => Text::from_str(alloc, text.as_str()),
            Tree::Int(n) => {
                let digits = n.to_string(alloc)?;
                Text::from_str(alloc, digits.as_str())
            }
            _ => Ok(Text::new(alloc)),
        }
    }
}

/// The port with a number in its range.
fn port_no(n: i128) -> Option<PortNo>
    ensures { result ≡ within 1 MOST_PORT_NO n }
{
    PortNo::new(u32::try_from(within(1, MOST_PORT_NO, n)?).ok()?)
}

/// The VLAN identifier with a number in its range.
fn vid(n: i128) -> Option<Vid>
    ensures { result ≡ within 1 MOST_VID n }
{
    Vid::new(u16::try_from(within(1, MOST_VID, n)?).ok()?)
}

fn as_port_no(tree: &Tree) -> Option<PortNo>
    ensures { result ≡ number_of 1 MOST_PORT_NO tree.now }
{
    match tree {
        Tree::Int(n) => port_no(*n),
        _ => None,
    }
}

fn as_vid(tree: &Tree) -> Option<Vid>
    ensures { result ≡ number_of 1 MOST_VID tree.now }
{
    match tree {
        Tree::Int(n) => vid(*n),
        _ => None,
    }
}

/// The number of an interface: its own key, or what it gives where that is a name.
pub fn own_port_no(key: &Key, given: Option<&Tree>) -> Option<PortNo>
    ensures { result ≡ own_number 1 MOST_PORT_NO key.now (option_copied given.entry) }
{
    match key {
        Key::Int(n) => port_no(*n),
        Key::Text(_) => as_port_no(given?),
    }
}

/// The number of a VLAN: its own key, or what it gives where that is a name.
pub fn own_vid(key: &Key, given: Option<&Tree>) -> Option<Vid>
    ensures { result ≡ own_number 1 MOST_VID key.now (option_copied given.entry) }
{
    match key {
        Key::Int(n) => vid(*n),
        Key::Text(_) => as_vid(given?),
    }
}

impl Read for PortRef {
    ghost given_by = { port_of };

    fn read(alloc: Global, tree: &Tree) -> Result<PortRef, NoMemory> {
        if let Some(no) = as_port_no(tree) {
            return Ok(PortRef::No(no));
        }
        let name: Text = Read::read(alloc, tree)?;
        Ok(PortRef::Name(name))
    }
}

impl Read for VlanRef {
    ghost given_by = { vlan_of };

    fn read(alloc: Global, tree: &Tree) -> Result<VlanRef, NoMemory> {
        if let Some(vid) = as_vid(tree) {
            return Ok(VlanRef::Vid(vid));
        }
        let name: Text = Read::read(alloc, tree)?;
        Ok(VlanRef::Name(name))
    }
}
