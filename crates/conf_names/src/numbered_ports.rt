//! Ports of datapaths, found by the datapaths' identifiers and their numbers.

ghost use Rattle.std.specs.Prelude.{◌≡◌, ◌==◌, ℕ, Some, IfOk, OnOk, if◌then◌else◌};
ghost use Rattle.std.specs.Ordering.{nat_cmp};
ghost use Rattle.std.specs.Option.{option_copied, option_map};
ghost use Rattle.std.specs.BTreeMap.{get};
ghost use Rattle.conf_types.specs.Configuration.{port_with, port_at};
ghost use Rattle.conf_names.specs.NumberedPorts.{port_placed, dp_numbered};

use conf_resolve::Resolved;
use conf_types::{Dp, Port};
use net_base::{DpId, NoMemory, PortNo};
use std::alloc::Global;
use std::collections::BTreeMap;

/// The place of the first port of each number.
type Places = BTreeMap<u64, usize>;

/// A datapath, and the place of the first port of each number.
#[derive(Drop)]
pub(crate) struct NumberedPorts<'a> {
    dp: &'a Dp,
    places: Places,
    ghost right: { (n : ℕ) → port_placed dp.now.ports places n ≡ port_with dp.now.ports n },
}

/// The first datapath of each identifier.
type Dps<'a> = BTreeMap<u64, NumberedPorts<'a>>;

/// A configuration, and the first datapath of each identifier.
#[derive(Drop)]
pub(crate) struct NumberedDps<'a> {
    conf: &'a Resolved,
    dps: Dps<'a>,
    ghost right: { (n : ℕ) → option_map (λ t. t.dp.now) (get nat_cmp dps n) ≡ dp_numbered conf.now.dps n },
}

/// From now on the port's number leads to the place.
fn add_port(places: &mut Places, port: &Port, at: usize) -> Result<(), NoMemory>
    ensures { OnOk result ((n : ℕ) → get nat_cmp places.new n ≡ (if port.now.no == n then Some at else get nat_cmp places.old n)) }
{
    places.insert(u64::from(port.no.get()), at)?;
    Ok(())
}

fn places_of(alloc: Global, ports: &[Port]) -> Result<Places, NoMemory>
    ensures { IfOk result (λ places. (n : ℕ) → port_placed ports.now places n ≡ port_with ports.now n) }
{
    let mut places = BTreeMap::new(alloc);
    for i in (0..ports.len()).rev() {
        add_port(&mut places, &ports[i], i)?;
    }
    Ok(places)
}

impl<'a> NumberedPorts<'a> {
    pub(crate) fn of(alloc: Global, dp: &'a Dp) -> Result<NumberedPorts<'a>, NoMemory>
        ensures { IfOk result (λ made. made.dp.now ≡ dp.now) }
    {
        let places = places_of(alloc, dp.ports.as_slice())?;
        Ok(NumberedPorts { dp, places })
    }

    /// The first port with the number.
    pub(crate) fn find(&self, no: PortNo) -> Option<&Port>
        ensures { option_copied result ≡ port_with self.now.dp.now.ports no }
    {
        let at = self.places.get(&u64::from(no.get()))?;
        self.dp.ports.as_slice().get(*at)
    }
}

/// From now on the datapath's identifier leads to it.
fn add_dp<'a>(alloc: Global, dps: &mut Dps<'a>, dp: &'a Dp) -> Result<(), NoMemory>
    ensures { OnOk result ((n : ℕ) → option_map (λ t. t.dp.now) (get nat_cmp dps.new n) ≡ (if dp.now.id.0 == n then Some dp.now else option_map (λ t. t.dp.now) (get nat_cmp dps.old n))) }
{
    let ports = NumberedPorts::of(alloc, dp)?;
    dps.insert(dp.id.0, ports)?;
    Ok(())
}

fn dps_of<'a>(alloc: Global, dps: &'a [Dp]) -> Result<Dps<'a>, NoMemory>
    ensures { IfOk result (λ made. (n : ℕ) → option_map (λ t. t.dp.now) (get nat_cmp made n) ≡ dp_numbered dps.now n) }
{
    let mut made = BTreeMap::new(alloc);
    for i in (0..dps.len()).rev() {
        add_dp(alloc, &mut made, &dps[i])?;
    }
    Ok(made)
}

impl<'a> NumberedDps<'a> {
    pub(crate) fn of(alloc: Global, conf: &'a Resolved) -> Result<NumberedDps<'a>, NoMemory>
        ensures { IfOk result (λ made. made.conf.now ≡ conf.now) }
    {
        let dps = dps_of(alloc, conf.dps().as_slice())?;
        Ok(NumberedDps { conf, dps })
    }

    pub(crate) fn conf(&self) -> &'a Resolved
        ensures { result.now ≡ self.now.conf.now }
    {
        self.conf
    }

    /// The first port with the number on the first datapath with the identifier.
    pub(crate) fn find(&self, id: DpId, no: PortNo) -> Option<&Port>
        ensures { option_copied result ≡ port_at self.now.conf.now id no }
    {
        self.dps.get(&id.0)?.find(no)
    }
}
