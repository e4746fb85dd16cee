ghost use Rattle.std.specs.Prelude.{◌≡◌, IfOk};
ghost use Rattle.of_match.specs.MatchOrder.{match_cmp};

use crate::lead::Lead;
use crate::order::{compare_each, match_len};
use net_base::{Field, Fields, NoMemory, TryCopy};
use std::alloc::Global;
use std::cmp::Ordering;
use std::marker::Model;
use std::rc::Rc;

// Fields, with how many bytes they take as a match, by which they are compared first.
#[derive(Debug, Drop)]
struct Measured {
    fields: Fields,
    len: u128,
}

/// The fields of a match, which contracts see. All its copies share them, so that a copy takes no memory.
/// What tells most matches apart is kept beside them, so that few comparisons read them.
#[derive(Debug, Drop)]
pub struct Match {
    lead: Lead,
    shared: Rc<Measured>,
}

impl Model for Match {
    ghost use Rattle.std.specs.Prelude.{◌≡◌, List};
    ghost use Rattle.net_base.specs.declared.field.Field.{Field};
    ghost use Rattle.of_match.specs.MatchOrder.{match_len};
    ghost use Rattle.of_match.specs.MatchLead.{lead_of};

    ghost Value = { List Field };

    ghost view = { λ m. m.shared.value.fields };

    ghost invariant = { λ m. (m.shared.value.len ≡ match_len m.shared.value.fields) × (m.lead ≡ lead_of m.shared.value.fields) };
}

impl Match {
    /// The match of these fields.
    pub fn new(alloc: Global, fields: Fields) -> Result<Match, NoMemory>
        ensures { IfOk result (λ made. made ≡ fields) }
    {
        let len = match_len(fields.as_slice());
        let lead = Lead::new(fields.as_slice(), len);
        let shared = Rc::new(alloc, Measured { fields, len })?;
        Ok(Match { lead, shared })
    }

    /// The match of the fields of a slice.
    pub fn from_slice(alloc: Global, fields: &[Field]) -> Result<Match, NoMemory>
        ensures { IfOk result (λ made. made ≡ fields.now) }
    {
        let fields = Fields::from_slice(alloc, fields)?;
        Match::new(alloc, fields)
    }

    /// The fields, in order.
    pub fn as_slice(&self) -> &[Field]
        ensures { result.now ≡ self.now }
    {
        self.shared.as_ref().fields.as_slice()
    }

    /// Two matches in the order of flow entries of one table and priority: by their length on the
    /// wire, and then field by field.
    #[tactic(auto, using(crate::proofs::Leads::lead_decides))]
    pub fn compare(&self, other: &Match) -> Ordering
        ensures { result ≡ match_cmp self.now other.now }
    {
        match self.lead.compare(&other.lead) {
            Ordering::Equal => self.compare_whole(other),
            unequal => unequal,
        }
    }

    // The same by their fields.
    fn compare_whole(&self, other: &Match) -> Ordering
        ensures { result ≡ match_cmp self.now other.now }
    {
        match self.shared.as_ref().len.cmp(&other.shared.as_ref().len) {
            Ordering::Equal => compare_each(self.as_slice(), other.as_slice()),
            unequal => unequal,
        }
    }
}

impl TryCopy for Match {
    fn copy(&self, _alloc: Global) -> Result<Match, NoMemory> {
        let shared = self.shared.clone()?;
        Ok(Match {
            lead: self.lead,
            shared,
        })
    }
}
