//! The laws: each function does nothing, and its contract is the law.

ghost use Rattle.std.specs.Prelude.{◌≡◌, ◌≢◌, ◌≤◌, ℕ, List, length, count_by};
ghost use Rattle.net_base.specs.declared.numbers.DpId.{DpId};
ghost use Rattle.stack_paths.specs.Chosen.{is_same_dp};
ghost use Rattle.stack_paths.specs.Stack.{Stack, IsStack, IsNode, IsJoined, IsDistance, IsHop, IsNextHop};
ghost use Rattle.law_trees.specs.Ways.{Leads, IsNoEnd, HaveTreePorts, reached};

/// Following the next hops towards a datapath ends there, behind as many links as its distance, each of which
/// leads one link nearer: so no datapath is come to twice. No next hop leads back over the link that was
/// come by.
pub fn next_hops_lead_to_their_target()
    ensures leads { (s : Stack) → IsStack s → (a b : DpId) (n : ℕ) → IsDistance s a b n → Leads s a b n }
    ensures onward { (s : Stack) → IsStack s → (a b e : DpId) (p q t : ℕ)
        → IsHop s a b p e q → IsNextHop s e b t → t ≢ q }
{}

/// A flood that begins by a port at which no link begins, and leaves each datapath by all its tree ports but
/// the one that it came by, comes once to each datapath that is joined to the first, and to no other. It
/// comes to no more datapaths in a row than the stack has.
pub fn a_flood_comes_once_to_each_datapath_of_its_part()
    ensures once { (s : Stack) → IsStack s → (ports : DpId → List ℕ) → HaveTreePorts s ports → (d t : DpId) (port k : ℕ)
        → IsNoEnd s d port → length s.nodes ≤ k → IsJoined s d t
        → count_by (is_same_dp t) (reached s ports k d port) ≡ 1 }
    ensures elsewhere { (s : Stack) → IsStack s → (ports : DpId → List ℕ) → (d t : DpId) (port k : ℕ)
        → IsNode s t → (IsJoined s d t → ⊥) → count_by (is_same_dp t) (reached s ports k d port) ≡ 0 }
    ensures ends { (s : Stack) → IsStack s → (ports : DpId → List ℕ) → (d : DpId) (port k : ℕ)
        → IsNode s d → IsNoEnd s d port → length s.nodes ≤ k
        → reached s ports k d port ≡ reached s ports (length s.nodes) d port }
{}
