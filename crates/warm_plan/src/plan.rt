//! The entries of a datapath, and the keys of each unit's.

ghost use Rattle.std.specs.Prelude.{◌≡◌, ◌*◌, None, Some, [], map, length, IfOk, IfSome, OnOk};
ghost use Rattle.of_match.specs.declared.entry.Command.TheVariants.{Add};
ghost use Rattle.of_match.specs.Settled.{after_all};
ghost use Rattle.conf_types.specs.Configuration.{dp_with};
ghost use Rattle.packet_way.specs.Known.{stack_of};
ghost use Rattle.packet_way.specs.Present.{state_of};
ghost use Rattle.plan_units.specs.Units.{entries};
ghost use Rattle.cold_start.specs.Counts.{RisesAtMost, RisesAtLeast};
ghost use Rattle.plan_difference.specs.Difference.{AreAllTold};
ghost use Rattle.warm_plan.specs.Kept.{ArePaths};
ghost use Rattle.warm_plan.specs.Parts.{keys_of, keys_at, AreSameParts, parts_without, without, without_units, parts_with, with_units};
ghost use Rattle.warm_plan.specs.Units.{put};
ghost use Rattle.warm_plan.specs.Touched.{KeepTold, wanted_of};

use crate::reaches::is_linked;
use crate::touched::{Touched, add_all, all_touched, bring, remove_all};
use cold_start::unit_entries_with;
use conf_types::{Conf, Dp, Tally};
use net_base::{Items, NoMemory, TryCopy};
use of_match::{Entry, Key, Tables};
use packet_way::{Now, make_paths};
use plan_units::Unit;
use stack_paths::Paths;
use std::alloc::Global;
use std::collections::BTreeMap;

/// Keys of entries.
pub(crate) type Keys = Items<Key>;

/// The keys of each unit's entries.
pub(crate) type Parts = BTreeMap<Unit, Keys>;

/// The entries that a switch is to hold, the keys of each unit's, and those at which they may differ from what it
/// was sent.
#[derive(Drop)]
pub(crate) struct Plan {
    pub(crate) parts: Parts,
    pub(crate) wanted: Tables,
    pub(crate) touched: Touched,
    /// The paths of the stack, once a unit hung on them, as long as no link changes.
    pub(crate) paths: Option<Paths>,
}

fn keys_of(alloc: Global, entries: &[Entry]) -> Result<Keys, NoMemory>
    ensures { IfOk result (λ keys. keys ≡ keys_of entries.now) }
{
    let mut keys = Items::new(alloc);
    for entry in entries {
        keys.push(entry.key.copy(alloc)?)?;
    }
    Ok(keys)
}

/// Takes out the keys of a unit; none where they aren't kept.
fn take_keys(alloc: Global, parts: &mut Parts, unit: &Unit) -> Keys
    ensures keys { result ≡ keys_at parts.old unit.now }
    ensures parts { AreSameParts (keys_at parts.new) (put (keys_at parts.old) unit.now []) }
{
    match parts.remove(unit) {
        Some(keys) => keys,
        None => Items::new(alloc),
    }
}

fn put_keys(parts: &mut Parts, unit: Unit, keys: Keys) -> Result<(), NoMemory>
    ensures { OnOk result (AreSameParts (keys_at parts.new) (put (keys_at parts.old) unit keys)) }
{
    parts.insert(unit, keys)?;
    Ok(())
}

/// The paths of a state's stack: those that are kept, and else new ones where one of the units hangs on them.
fn paths_for(
    alloc: Global,
    conf: &Conf,
    now: &Now,
    kept: Option<Paths>,
    made: &[Unit],
) -> Result<Option<Paths>, NoMemory>
    requires { ArePaths conf.now (state_of now.now) kept }
    ensures { IfOk result (λ paths. ArePaths conf.now (state_of now.now) paths) }
{
    if kept.is_some() || !made.iter().any(|unit| is_linked(unit)) {
        return Ok(kept);
    }
    let paths = make_paths(alloc, conf, now.ups.as_slice())?;
    Ok(Some(paths))
}

/// The datapath whose units are made, and what their entries hang on. The paths are those of the state's
/// stack, where a unit hangs on them.
#[derive(Drop)]
struct Making<'a> {
    alloc: Global,
    conf: &'a Conf,
    learned: &'a Now<'a>,
    paths: Option<&'a Paths>,
    dp: &'a Dp,
}

impl Plan {
    /// No entry, where these were sent.
    pub(crate) fn new(alloc: Global, sent: &Tables) -> Result<Plan, NoMemory>
        ensures parts { IfOk result (λ made. AreSameParts (keys_at made.parts) (λ _. [])) }
        ensures wanted { IfOk result (λ made. made.wanted ≡ []) }
        ensures told { IfOk result (λ made. AreAllTold made.touched.keys sent.now made.wanted) }
        ensures paths { IfOk result (λ made. made.paths ≡ None) }
    {
        let touched = all_touched(alloc, sent)?;
        Ok(Plan {
            parts: BTreeMap::new(alloc),
            wanted: Tables::new(alloc),
            touched,
            paths: None,
        })
    }

    /// Where the entries were taken, so that those that stand here are behind, they become those that were sent.
    pub(crate) fn renew(
        &mut self,
        alloc: Global,
        sent: &Tables,
        is_taken: bool,
    ) -> Result<(), NoMemory>
        requires { AreAllTold self.old.touched.keys sent.now self.old.wanted }
        ensures parts { AreSameParts (keys_at self.new.parts) (keys_at self.old.parts) }
        ensures wanted { OnOk result (self.new.wanted ≡ wanted_of is_taken sent.now self.old.wanted) }
        ensures told { OnOk result (AreAllTold self.new.touched.keys sent.now self.new.wanted) }
        ensures paths { self.new.paths ≡ self.old.paths }
    {
        if is_taken {
            bring(alloc, &mut self.wanted, &mut self.touched, sent)?;
        }
        Ok(())
    }

    fn drop_one(&mut self, alloc: Global, unit: &Unit) -> Result<(), NoMemory>
        ensures parts { OnOk result (AreSameParts (keys_at self.new.parts) (put (keys_at self.old.parts) unit.now [])) }
        ensures wanted { OnOk result (self.new.wanted ≡ without self.old.wanted (keys_at self.old.parts unit.now)) }
        ensures told { OnOk result (KeepTold self.old.touched.keys self.old.wanted self.new.touched.keys self.new.wanted) }
        ensures paths { self.new.paths ≡ self.old.paths }
    {
        let keys = take_keys(alloc, &mut self.parts, unit);
        remove_all(&mut self.wanted, &mut self.touched, keys)
    }

    /// Takes out the entries of these units.
    pub(crate) fn drop_units(&mut self, alloc: Global, gone: &[Unit]) -> Result<(), NoMemory>
        ensures parts { OnOk result (AreSameParts (keys_at self.new.parts) (parts_without (keys_at self.old.parts) gone.now)) }
        ensures wanted { OnOk result (self.new.wanted ≡ without_units (keys_at self.old.parts) self.old.wanted gone.now) }
        ensures told { OnOk result (KeepTold self.old.touched.keys self.old.wanted self.new.touched.keys self.new.wanted) }
        ensures paths { self.new.paths ≡ self.old.paths }
    {
        for unit in gone {
            self.drop_one(alloc, unit)?;
        }
        Ok(())
    }

    fn make_one<T: Tally>(
        &mut self,
        making: &Making,
        unit: Unit,
        units: &mut T,
    ) -> Result<(), NoMemory>
        requires dp { dp_with making.now.conf.now.dps making.now.dp.now.id ≡ Some making.now.dp.now }
        requires paths { IfSome making.now.paths (λ paths. paths.now ≡ stack_of making.now.conf.now making.now.learned.now.ups.now) }
        ensures parts { OnOk result (AreSameParts (keys_at self.new.parts) (put (keys_at self.old.parts) unit (keys_of (entries making.now.conf.now (state_of making.now.learned.now) making.now.dp.now unit)))) }
        ensures wanted { OnOk result (self.new.wanted ≡ after_all self.old.wanted (map Add (entries making.now.conf.now (state_of making.now.learned.now) making.now.dp.now unit))) }
        ensures told { OnOk result (KeepTold self.old.touched.keys self.old.wanted self.new.touched.keys self.new.wanted) }
        ensures most { RisesAtMost 3 (T.count units.old) (T.count units.new) }
        ensures least { OnOk result (RisesAtLeast 1 (T.count units.old) (T.count units.new)) }
    {
        let made = unit_entries_with(
            making.alloc,
            making.conf,
            making.learned,
            making.paths,
            making.dp.id,
            &unit,
            units,
        )?;
        let keys = keys_of(making.alloc, made.as_slice())?;
        put_keys(&mut self.parts, unit, keys)?;
        add_all(making.alloc, &mut self.wanted, &mut self.touched, made)?;
        Ok(())
    }

    /// Adds the entries of these units. For each at least one unit of work is counted where they are made,
    /// and at most three.
    #[tactic(auto, using(crate::proofs::Commands::units_more))]
    pub(crate) fn make<'a, T: Tally>(
        &mut self,
        alloc: Global,
        conf: &'a Conf,
        now: &'a Now<'a>,
        dp: &'a Dp,
        made: &[Unit],
        units: &mut T,
    ) -> Result<(), NoMemory>
        requires dp { dp_with conf.now.dps dp.now.id ≡ Some dp.now }
        requires paths { ArePaths conf.now (state_of now.now) self.old.paths }
        ensures parts { OnOk result (AreSameParts (keys_at self.new.parts) (parts_with conf.now (state_of now.now) dp.now (keys_at self.old.parts) made.now)) }
        ensures wanted { OnOk result (self.new.wanted ≡ with_units conf.now (state_of now.now) dp.now self.old.wanted made.now) }
        ensures told { OnOk result (KeepTold self.old.touched.keys self.old.wanted self.new.touched.keys self.new.wanted) }
        ensures most { RisesAtMost (3 * length made.now) (T.count units.old) (T.count units.new) }
        ensures least { OnOk result (RisesAtLeast (length made.now) (T.count units.old) (T.count units.new)) }
        ensures paths { OnOk result (ArePaths conf.now (state_of now.now) self.new.paths) }
    {
        let kept = self.paths.take();
        let known = paths_for(alloc, conf, now, kept, made)?;
        let paths = known.as_ref();
        let making = Making {
            alloc,
            conf,
            learned: now,
            paths,
            dp,
        };
        for unit in made {
            self.make_one(&making, *unit, units)?;
        }
        self.paths = known;
        Ok(())
    }
}
