//! What is known of each section.

ghost use Rattle.std.specs.Prelude.{◌≡◌, false, [], OnOk};
ghost use Rattle.yaml_tree.specs.declared.tree.Key.{Key};
ghost use Rattle.conf_gather.specs.Known.{knows, known_of, AreKnown, IsGrown, GrowsIn};

use crate::key_set::KeySet;
use crate::keys::Section;
use net_base::NoMemory;
use std::alloc::Global;
use yaml_tree::Pair;

/// The place of a section among the entries gathered so far, and the keys of its own entries.
#[derive(Debug, Drop)]
pub struct Known {
    pub at: Option<usize>,
    pub names: KeySet,
}

/// What is known of each.
#[derive(Debug, Drop)]
pub struct Sections {
    vlans: Known,
    dps: Known,
    acls: Known,
    routers: Known,
}

impl Known {
    /// Nothing is known. It takes no memory yet.
    fn new(alloc: Global) -> Known
        ensures place { result.at ≡ None }
        ensures names { (key : Key) → knows result.names key ≡ false }
    {
        Known {
            at: None,
            names: KeySet::new(alloc),
        }
    }

    /// The section stands here, and has these entries too.
    fn grow(&mut self, alloc: Global, place: usize, more: &[Pair]) -> Result<(), NoMemory>
        ensures { OnOk result (IsGrown place more.now self.old self.new) }
    {
        self.at = Some(place);
        self.names.add_all(alloc, more)
    }
}

impl Sections {
    /// No section yet.
    pub fn new(alloc: Global) -> Sections
        ensures { AreKnown [] result }
    {
        Sections {
            vlans: Known::new(alloc),
            dps: Known::new(alloc),
            acls: Known::new(alloc),
            routers: Known::new(alloc),
        }
    }

    pub fn of(&self, section: Section) -> &Known
        ensures { result.now ≡ known_of section self.now }
    {
        match section {
            Section::Vlans => &self.vlans,
            Section::Dps => &self.dps,
            Section::Acls => &self.acls,
            Section::Routers => &self.routers,
        }
    }

    /// A section stands here, and has these entries too.
    pub fn grow(
        &mut self,
        alloc: Global,
        section: Section,
        place: usize,
        more: &[Pair],
    ) -> Result<(), NoMemory>
        ensures { OnOk result (GrowsIn section place more.now self.old self.new) }
    {
        match section {
            Section::Vlans => self.vlans.grow(alloc, place, more),
            Section::Dps => self.dps.grow(alloc, place, more),
            Section::Acls => self.acls.grow(alloc, place, more),
            Section::Routers => self.routers.grow(alloc, place, more),
        }
    }
}
