//! Datapaths, each with the ACLs that are attached on it and its ports to be looked up.

ghost use Rattle.std.specs.Prelude.{◌≡◌, ℕ, List, IfOk, map};
ghost use Rattle.std.specs.Ordering.{nat_cmp};
ghost use Rattle.std.specs.BTreeMap.{get, get_by_text};
ghost use Rattle.std.specs.BTreeSet.{contains_text};
ghost use Rattle.conf_types.specs.Attached.{is_named};
ghost use Rattle.conf_names.specs.Ends.{end_among, end_numbered, end_named, end_cause};
ghost use Rattle.conf_rules.specs.Places.{first};
ghost use Rattle.conf_rules.specs.Ports.{is_attached, wrong_target, wrong_on, wrong_targets};
ghost use Rattle.conf_names.specs.Tables.{in_conf};

use crate::attached::{Attached, attached_on};
use crate::ends::{NamedEnds, NumberedEnds, named_ends, numbered_ends};
use conf_resolve::Resolved;
use conf_shape::{ConfCause, RawAcl};
use conf_types::{Dp, PortRef};
use net_base::{NoMemory, PortNo, Text};
use std::alloc::Global;

/// A datapath of a configuration, the names of the ACLs that are attached on it, and whether the
/// first port of each number and of each name is an end of a stack link.
#[derive(Drop)]
pub(crate) struct DpTables<'a> {
    conf: &'a Resolved,
    dp: &'a Dp,
    acls: Attached,
    numbers: NumberedEnds,
    names: NamedEnds,
    ghost attached: { (t : List ℕ) → contains_text acls t ≡ is_attached conf.now dp.now t },
    ghost numbered: { (n : ℕ) → get nat_cmp numbers n ≡ end_numbered dp.now.ports n },
    ghost named: { (t : List ℕ) → get_by_text names t ≡ end_named dp.now.ports t },
}

/// A configuration, and the tables of its datapaths.
#[derive(Drop)]
pub(crate) struct Targets<'a> {
    conf: &'a Resolved,
    dps: Vec<DpTables<'a>>,
    ghost right: { map (λ t. in_conf t.conf.now t.dp.now) dps.items ≡ map (in_conf conf.now) conf.now.dps },
}

/// What is wrong with a port of which this is known.
fn cause_of(is_end: Option<bool>) -> Option<ConfCause>
    ensures { result ≡ end_cause is_end }
{
    match is_end {
        Some(is_end) => {
            if is_end {
                Some(ConfCause::Conflict(8))
            } else {
                None
            }
        }
        None => Some(ConfCause::Unresolved),
    }
}

impl<'a> DpTables<'a> {
    fn of(alloc: Global, conf: &'a Resolved, dp: &'a Dp) -> Result<DpTables<'a>, NoMemory>
        ensures { IfOk result (λ made. in_conf made.conf.now made.dp.now ≡ in_conf conf.now dp.now) }
    {
        let acls = attached_on(alloc, conf, dp)?;
        let numbers = numbered_ends(alloc, dp.ports.as_slice())?;
        let names = named_ends(alloc, dp.ports.as_slice())?;
        Ok(DpTables {
            conf,
            dp,
            acls,
            numbers,
            names,
        })
    }

    /// Whether the ACL is attached on the datapath.
    fn is_attached(&self, name: &Text) -> bool
        ensures { result ≡ is_attached self.now.conf.now self.now.dp.now name.now }
    {
        self.acls.contains(name.as_str())
    }

    fn is_end_numbered(&self, no: PortNo) -> Option<bool>
        ensures { result ≡ end_numbered self.now.dp.now.ports no }
    {
        self.numbers.get(&u64::from(no.get())).copied()
    }

    fn is_end_named(&self, name: &Text) -> Option<bool>
        ensures { result ≡ end_named self.now.dp.now.ports name.now }
    {
        self.names.get(name.as_str()).copied()
    }

    /// Whether the port that is named is an end of a stack link; `None` where there is none.
    fn is_end(&self, name: &PortRef) -> Option<bool>
        ensures { result ≡ end_among (is_named name.now) self.now.dp.now.ports }
    {
        match name {
            PortRef::No(no) => self.is_end_numbered(*no),
            PortRef::Name(name) => self.is_end_named(name),
        }
    }

    /// What is wrong with a port that an ACL names on the datapath.
    fn wrong_target(&self, name: &PortRef) -> Option<ConfCause>
        ensures { result ≡ wrong_target name.now self.now.dp.now }
    {
        cause_of(self.is_end(name))
    }

    /// The same, where the ACL is attached.
    fn wrong_on(&self, acl: &RawAcl, name: &PortRef) -> Option<ConfCause>
        ensures { result ≡ first (wrong_on self.now.conf.now acl.now.name name.now self.now.dp.now) }
    {
        if self.is_attached(&acl.name) {
            self.wrong_target(name)
        } else {
            None
        }
    }
}

/// The tables of each datapath.
fn tables_of<'a>(alloc: Global, conf: &'a Resolved) -> Result<Vec<DpTables<'a>>, NoMemory>
    ensures { IfOk result (λ tables. map (λ t. in_conf t.conf.now t.dp.now) tables.items ≡ map (in_conf conf.now) conf.now.dps) }
{
    let mut tables = Vec::new(alloc);
    for dp in conf.dps().as_slice() {
        let made = DpTables::of(alloc, conf, dp)?;
        tables.push(made)?;
    }
    Ok(tables)
}

impl<'a> Targets<'a> {
    pub(crate) fn of(alloc: Global, conf: &'a Resolved) -> Result<Targets<'a>, NoMemory>
        ensures { IfOk result (λ made. made.conf.now ≡ conf.now) }
    {
        let dps = tables_of(alloc, conf)?;
        Ok(Targets { conf, dps })
    }

    /// What is wrong with a port that an ACL names, on the first datapath where there is something
    /// wrong.
    #[tactic(auto, using(conf_rules::proofs::First::first_rules))]
    pub(crate) fn wrong_cause(&self, acl: &RawAcl, name: &PortRef) -> Option<ConfCause>
        ensures { result ≡ first (wrong_targets self.now.conf.now acl.now.name name.now) }
    {
        for tables in self.dps.as_slice() {
            if let Some(cause) = tables.wrong_on(acl, name) {
                return Some(cause);
            }
        }
        None
    }
}
