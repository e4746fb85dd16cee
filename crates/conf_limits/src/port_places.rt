//! The ports of a datapath, found by their numbers and names.

ghost use Rattle.std.specs.Prelude.{◌≡◌, ◌==◌, ◌||◌, ◌++◌, ◌∷◌, [], ℕ, List, IfOk, OnOk, if◌then◌else◌};
ghost use Rattle.std.specs.List.{list_any};
ghost use Rattle.conf_types.specs.Attached.{is_named, names_in};
ghost use Rattle.conf_types.specs.Lists.{is_among, is_same};
ghost use Rattle.conf_types.specs.Valid.{ports_named};
ghost use Rattle.conf_limits.specs.PortPlaces.{at_name, at_number, stands_at};

use conf_rules::different_len;
use conf_types::{Dp, Port, PortRef, Rule};
use net_base::{NoMemory, PortNo, Text};
use std::alloc::Global;
use std::collections::BTreeMap;

/// Of each number, the places of the ports that have it.
type ByNumber = BTreeMap<u64, Vec<u128>>;

/// The same of each name.
type ByName = BTreeMap<String, Vec<u128>>;

/// A datapath, and the places of its ports by their numbers and by their names.
#[derive(Drop)]
pub(crate) struct PortPlaces<'a> {
    dp: &'a Dp,
    numbers: ByNumber,
    names: ByName,
    ghost right_numbers: { (n at : ℕ) → is_among (at_number numbers n) at ≡ stands_at 0 dp.now.ports (λ p. p.no == n) at },
    ghost right_names: { (t : List ℕ) (at : ℕ) → is_among (at_name names t) at ≡ stands_at 0 dp.now.ports (λ p. is_same p.name t) at },
}

/// These places, and one more.
fn with_place(alloc: Global, places: &[u128], at: u128) -> Result<Vec<u128>, NoMemory>
    ensures { IfOk result (λ all. all.items ≡ places.now ++ at ∷ []) }
{
    let mut all = Vec::new(alloc);
    all.extend_from_slice(places)?;
    all.push(at)?;
    Ok(all)
}

fn at_number(numbers: &ByNumber, number: u64) -> &[u128]
    ensures { result.now ≡ at_number numbers.now number }
{
    match numbers.get(&number) {
        Some(places) => places.as_slice(),
        None => &[],
    }
}

/// From now on the port's number leads to the place too.
fn add_number(alloc: Global, numbers: &mut ByNumber, port: &Port, at: u128) -> Result<(), NoMemory>
    ensures { OnOk result ((n : ℕ) → at_number numbers.new n ≡ at_number numbers.old n ++ (if port.now.no == n then at ∷ [] else [])) }
{
    let number = u64::from(port.no.get());
    let places = with_place(alloc, at_number(numbers, number), at)?;
    numbers.insert(number, places)?;
    Ok(())
}

fn numbers_of(alloc: Global, ports: &[Port]) -> Result<ByNumber, NoMemory>
    ensures { IfOk result (λ numbers. (n at : ℕ) → is_among (at_number numbers n) at ≡ stands_at 0 ports.now (λ p. p.no == n) at) }
{
    let mut numbers = BTreeMap::new(alloc);
    for i in (0..ports.len()).rev() {
        add_number(alloc, &mut numbers, &ports[i], i as u128)?;
    }
    Ok(numbers)
}

fn at_name<'a>(names: &'a ByName, name: &str) -> &'a [u128]
    ensures { result.now ≡ at_name names.now name.now }
{
    match names.get(name) {
        Some(places) => places.as_slice(),
        None => &[],
    }
}

/// From now on the port's name leads to the place too.
fn add_name(alloc: Global, names: &mut ByName, port: &Port, at: u128) -> Result<(), NoMemory>
    ensures { OnOk result ((t : List ℕ) → at_name names.new t ≡ at_name names.old t ++ (if is_same port.now.name t then at ∷ [] else [])) }
{
    let name = port.name.as_str();
    let key = String::from_str(alloc, name)?;
    let places = with_place(alloc, at_name(names, name), at)?;
    names.insert(key, places)?;
    Ok(())
}

fn names_of(alloc: Global, ports: &[Port]) -> Result<ByName, NoMemory>
    ensures { IfOk result (λ names. (t : List ℕ) (at : ℕ) → is_among (at_name names t) at ≡ stands_at 0 ports.now (λ p. is_same p.name t) at) }
{
    let mut names = BTreeMap::new(alloc);
    for i in (0..ports.len()).rev() {
        add_name(alloc, &mut names, &ports[i], i as u128)?;
    }
    Ok(names)
}

impl<'a> PortPlaces<'a> {
    pub(crate) fn of(alloc: Global, dp: &'a Dp) -> Result<PortPlaces<'a>, NoMemory>
        ensures { IfOk result (λ made. made.dp.now ≡ dp.now) }
    {
        let numbers = numbers_of(alloc, dp.ports.as_slice())?;
        let names = names_of(alloc, dp.ports.as_slice())?;
        Ok(PortPlaces { dp, numbers, names })
    }

    pub(crate) fn dp(&self) -> &Dp
        ensures { result.now ≡ self.now.dp.now }
    {
        self.dp
    }

    /// The places of the ports that have the number.
    fn numbered(&self, no: PortNo) -> &[u128]
        ensures { (at : ℕ) → is_among result.now at ≡ stands_at 0 self.now.dp.now.ports (λ p. p.no == no) at }
    {
        at_number(&self.numbers, u64::from(no.get()))
    }

    /// The places of the ports that have the name.
    fn named(&self, name: &Text) -> &[u128]
        ensures { (at : ℕ) → is_among result.now at ≡ stands_at 0 self.now.dp.now.ports (λ p. is_same p.name name.now) at }
    {
        at_name(&self.names, name.as_str())
    }

    /// The places of the ports that are named.
    fn places(&self, name: &PortRef) -> &[u128]
        ensures { (at : ℕ) → is_among result.now at ≡ stands_at 0 self.now.dp.now.ports (is_named name.now) at }
    {
        match name {
            PortRef::No(no) => self.numbered(*no),
            PortRef::Name(name) => self.named(name),
        }
    }

    /// Adds the places of the ports that are named.
    fn add_places(&self, places: &mut Vec<u128>, names: &[PortRef]) -> Result<(), NoMemory>
        ensures { OnOk result ((at : ℕ) → is_among places.new.items at ≡ (is_among places.old.items at || list_any (λ name. stands_at 0 self.now.dp.now.ports (is_named name) at) names.now)) }
    {
        for name in names {
            places.extend_from_slice(self.places(name))?;
        }
        Ok(())
    }

    /// The places of the ports that a rule names, several times where it names a port so.
    fn places_of(&self, alloc: Global, rule: &Rule) -> Result<Vec<u128>, NoMemory>
        ensures { IfOk result (λ places. (at : ℕ) → is_among places.items at ≡ list_any (λ name. stands_at 0 self.now.dp.now.ports (is_named name) at) (names_in rule.now)) }
    {
        let mut places = Vec::new(alloc);
        self.add_places(&mut places, rule.mirror.as_slice())?;
        self.add_places(&mut places, rule.output.as_slice())?;
        Ok(places)
    }

    /// How many ports a rule names.
    pub(crate) fn count(&self, alloc: Global, rule: &Rule) -> Result<usize, NoMemory>
        ensures { IfOk result (λ count. count ≡ ports_named self.now.dp.now rule.now) }
    {
        let places = self.places_of(alloc, rule)?;
        different_len(alloc, places.as_slice())
    }
}
