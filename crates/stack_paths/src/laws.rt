//! What follows from the definitions of a stack's walks, roots and uplinks, for every stack.
ghost use Rattle.std.specs.Prelude.{◌≡◌, ◌≢◌, ◌<◌, ◌↔◌, ℕ, suc, Some, IsTrue};
ghost use Rattle.net_base.specs.declared.numbers.DpId.{DpId};
ghost use Rattle.stack_paths.specs.Chosen.{distance_of, hop_of, is_tree_port};
ghost use Rattle.stack_paths.specs.Stack.{Stack, HasLink, IsStack, Walk, IsJoined, IsDistance, IsNextHop, IsRoot, IsUplink, Follows, IsTreePort};

/// A walk leads back, and two datapaths have one distance.
pub fn walks_lead_back()
    ensures back { (s : Stack) → IsStack s → (a b : DpId) (n : ℕ) → Walk s a b n → Walk s b a n }
    ensures one_distance { (s : Stack) (a b : DpId) (m n : ℕ) → IsDistance s a b m → IsDistance s a b n → m ≡ n }
    ensures distance { (s : Stack) (a b : DpId) → IsJoined s a b → (n : ℕ) × IsDistance s a b n }
{}

/// A next hop is one link nearer, and where the distance isn't 0 there is one.
pub fn a_next_hop_is_one_link_nearer()
    ensures nearer { (s : Stack) (a b : DpId) (p : ℕ) → IsNextHop s a b p
        → (e : DpId) × (q : ℕ) × (n : ℕ)
        × HasLink s a p e q × IsDistance s a b (suc n) × IsDistance s e b n }
    ensures exists { (s : Stack) → IsStack s → (a b : DpId) (n : ℕ) → IsDistance s a b (suc n)
        → (p : ℕ) × IsNextHop s a b p }
{}

/// A connected part has one root, whichever of its datapaths asks.
pub fn a_part_has_one_root()
    ensures one { (s : Stack) → IsStack s → (d r t : DpId) → IsRoot s d r → IsRoot s d t → r ≡ t }
    ensures shared { (s : Stack) → IsStack s → (d e r : DpId) → IsJoined s d e → IsRoot s d r → IsRoot s e r }
{}

/// The root of a part has no uplink, and each other datapath of it has exactly one.
pub fn each_datapath_but_the_root_has_one_uplink()
    ensures root { (s : Stack) → IsStack s → (d r : DpId) (p : ℕ) (e : DpId) (q : ℕ)
        → IsRoot s d r → IsUplink s r p e q → ⊥ }
    ensures exists { (s : Stack) → IsStack s → (d r : DpId) → IsRoot s d r → d ≢ r
        → (p : ℕ) × (e : DpId) × (q : ℕ) × IsUplink s d p e q }
    ensures one { (s : Stack) → IsStack s → (d : DpId) (p t : ℕ) (e f : DpId) (q u : ℕ)
        → IsUplink s d p e q → IsUplink s d t f u → (p ≡ t) × (e ≡ f) × (q ≡ u) }
{}

/// Following the uplinks from any datapath ends at the root of its part after as many links as its
/// distance: the uplinks make a tree that reaches every datapath of the part.
pub fn uplinks_lead_to_the_root()
    ensures { (s : Stack) → IsStack s → (d r : DpId) → IsRoot s d r
        → (n : ℕ) × IsDistance s d r n × Follows s d r n }
{}

/// The port at the other end of a tree port's link is a tree port too.
pub fn tree_ports_come_in_pairs()
    ensures { (s : Stack) (d : DpId) (p : ℕ) → IsTreePort s d p
        → (e : DpId) × (q : ℕ) × HasLink s d p e q × IsTreePort s e q }
{}

/// Distances, next hops and tree ports as functions are those of the walks.
pub fn distances_hops_and_trees_are_functions()
    ensures distance { (s : Stack) → IsStack s → (a b : DpId) (n : ℕ)
        → (distance_of s a b ≡ Some n) ↔ IsDistance s a b n }
    ensures hop { (s : Stack) → IsStack s → (a b : DpId) (p : ℕ)
        → (hop_of s a b ≡ Some p) ↔ IsNextHop s a b p }
    ensures tree { (s : Stack) → IsStack s → (d : DpId) (p : ℕ)
        → IsTrue (is_tree_port s d p) ↔ IsTreePort s d p }
{}
