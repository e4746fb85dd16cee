//! What comes first among datapaths, interfaces, VLANs, ACLs and routers.

ghost use Rattle.std.specs.Prelude.{◌≡◌, nat_lt};
ghost use Rattle.std.specs.Ordering.{is_lt, is_gt};
ghost use Rattle.std.specs.Cmp.Lexicographic.{nat_list_cmp_total};
ghost use Rattle.std.proofs.lemmas.List.Sorted.{ranks_by, IsStrictWeakOrder-by_number};
ghost use Rattle.conf_resolve.specs.InOrder.{is_text_before};

use crate::order::Ranked;
use crate::ordered::PlacedVlan;
use conf_shape::{RawAcl, RawDp, RawPort, RawRouter};
use net_base::Text;
use std::cmp::Ordering;

/// The one whose bytes come first comes first.
#[tactic(auto, using(crate::proofs::Sorting::text_behind))]
fn rank_texts(a: &Text, b: &Text) -> Ordering
    ensures before { is_lt result ≡ is_text_before a.now b.now }
    ensures behind { is_gt result ≡ is_text_before b.now a.now }
{
    a.as_str().cmp(b.as_str())
}

impl Ranked for RawPort {
    ghost before = { λ p q. nat_lt p.no q.no };

    ghost ranks = { IsStrictWeakOrder-by_number (λ p. p.no) };

    fn rank(&self, other: &RawPort) -> Ordering {
        self.no.get().cmp(&other.no.get())
    }
}

impl Ranked for PlacedVlan {
    ghost before = { λ v w. nat_lt v.vlan.vid w.vlan.vid };

    ghost ranks = { IsStrictWeakOrder-by_number (λ v. v.vlan.vid) };

    fn rank(&self, other: &PlacedVlan) -> Ordering {
        self.vlan.vid.get().cmp(&other.vlan.vid.get())
    }
}

impl Ranked for RawDp {
    ghost before = { λ d e. is_text_before d.names.name e.names.name };

    ghost ranks = { ranks_by nat_list_cmp_total (λ d. d.names.name) };

    fn rank(&self, other: &RawDp) -> Ordering {
        rank_texts(&self.names.name, &other.names.name)
    }
}

impl Ranked for RawAcl {
    ghost before = { λ a b. is_text_before a.name b.name };

    ghost ranks = { ranks_by nat_list_cmp_total (λ a. a.name) };

    fn rank(&self, other: &RawAcl) -> Ordering {
        rank_texts(&self.name, &other.name)
    }
}

impl Ranked for RawRouter {
    ghost before = { λ r s. is_text_before r.name s.name };

    ghost ranks = { ranks_by nat_list_cmp_total (λ r. r.name) };

    fn rank(&self, other: &RawRouter) -> Ordering {
        rank_texts(&self.name, &other.name)
    }
}
