//! What holds of the definitions. The functions do nothing: their contracts are the laws.

ghost use Rattle.std.specs.Prelude.{◌≡◌, ◌+◌, ◌*◌, ◌<◌, ◌≤◌, ◌++◌, ℕ, Bool, List, [], ◌∷◌, count_by, is_some, length, map, Some, true, false};
ghost use Rattle.std.specs.List.{list_any};
ghost use Rattle.conf_types.specs.declared.address.Ip.{Ip};
ghost use Rattle.conf_types.specs.declared.datapath.Dp.{Dp};
ghost use Rattle.conf_types.specs.declared.state.NeighRec.{NeighRec};
ghost use Rattle.conf_types.specs.declared.vlan.Vlan.{Vlan};
ghost use Rattle.conf_types.specs.Configuration.{Configuration};
ghost use Rattle.conf_types.specs.Lists.{EachBefore};
ghost use Rattle.conf_types.specs.Membership.{has_edge_member};
ghost use Rattle.conf_types.specs.Networks.{is_neighbour_address};
ghost use Rattle.conf_types.specs.State.{IsNeighbour, IsValidState, State, is_running};
ghost use Rattle.neighbour_resolve.specs.declared.neighbour.Due.{Due};
ghost use Rattle.neighbour_resolve.specs.declared.neighbour.Due.TheVariants.{Gone};
ghost use Rattle.net_base.specs.declared.numbers.DpId.{DpId};
ghost use Rattle.neighbour_resolve.specs.Asks.{ask_on, in_order};
ghost use Rattle.neighbour_resolve.specs.Due.{after_due, first_due, is_due, is_gateway};
ghost use Rattle.neighbour_resolve.specs.Kept.{kept_neighbours};
ghost use Rattle.neighbour_resolve.specs.Runs.{IsFirstRun, Settles, all_tries, asked_at, at, every_64_seconds, said_about, tries_after};
ghost use Rattle.neighbour_resolve.specs.Table.{after_told, is_same, off_group};

/// Each answer of `due` leaves one neighbour fewer that is due, so calling it until it has nothing more
/// to say ends.
pub fn a_settling_ends()
    ensures fewer { (conf : Configuration) (moment : ℕ) (before : List NeighRec) (n : NeighRec) → first_due moment before ≡ Some n
        → count_by (is_due moment) (after_due conf moment before) + 1 ≡ count_by (is_due moment) before }
    ensures ends { (conf : Configuration) (moment : ℕ) (before : List NeighRec) → (answers : List Due) × (after : List NeighRec) × Settles conf moment before answers after }
{}

/// Where `due` is called at each moment until it has nothing more to say, and a neighbour that is no
/// gateway is left alone: it is asked exactly ten times, at exactly the moments of the table, and when the
/// last wait is over it is gone.
pub fn a_neighbour_is_asked_ten_times_and_then_is_gone()
    ensures said { (conf : Configuration) (n : NeighRec) (before : List NeighRec) (answers : List (List Due)) (after : List NeighRec)
        → IsFirstRun conf n before answers after → is_gateway conf n ≡ false → all_tries < length answers
        → said_about n n.due.0 answers ≡ asked_at n (map (λ ms. n.due.0 + ms) tries_after) ++ at (n.due.0 + all_tries) (Gone n.group n.vid n.ip) ∷ [] }
    ensures gone { (conf : Configuration) (n : NeighRec) (before : List NeighRec) (answers : List (List Due)) (after : List NeighRec)
        → IsFirstRun conf n before answers after → is_gateway conf n ≡ false → all_tries < length answers
        → list_any (is_same n) after ≡ false }
{}

/// A gateway is asked at these moments too, and from the end of the last wait on every 64 seconds.
pub fn a_gateway_is_asked_on()
    ensures { (conf : Configuration) (n : NeighRec) (before : List NeighRec) (answers : List (List Due)) (after : List NeighRec) (count : ℕ)
        → IsFirstRun conf n before answers after → is_gateway conf n ≡ true → length answers ≡ all_tries + 64000 * count
        → said_about n n.due.0 answers ≡ asked_at n (map (λ ms. n.due.0 + ms) tries_after ++ every_64_seconds count (n.due.0 + all_tries)) }
{}

/// A valid state stays valid with the neighbours that a call leaves: where one is wanted or heard whose
/// address is a neighbour's of its VLAN, and of whose group a datapath runs; where one is asked or given
/// up; and where a group's are let go. One that has none is valid with those that are kept of any table.
pub fn what_is_left_is_valid()
    ensures told { (conf : Configuration) (state : State) (stays : NeighRec → Bool) (told : NeighRec) (limit : ℕ) → limit ≤ 2048 → length state.neighbours ≤ limit
        → IsNeighbour conf state told → IsValidState conf state
        → IsValidState conf (record state { neighbours = (after_told stays told (record { limit = limit; neighbours = state.neighbours })).neighbours }) }
    ensures due { (conf : Configuration) (state : State) (moment : ℕ) → IsValidState conf state → IsValidState conf (record state { neighbours = after_due conf moment state.neighbours }) }
    ensures forgotten { (conf : Configuration) (state : State) (group : DpId) → IsValidState conf state → IsValidState conf (record state { neighbours = off_group group state.neighbours }) }
    ensures kept { (conf : Configuration) (state : State) (neighbours : List NeighRec) → length neighbours ≤ 2048 → IsValidState conf (record state { neighbours = [] })
        → IsValidState conf (record state { neighbours = kept_neighbours conf state.running neighbours }) }
{}

/// The running datapaths of a group are asked by identifier, each once: the list in order ascends, has
/// the same datapaths, and is the list itself where that ascends.
pub fn datapaths_are_asked_in_order()
    ensures ascends { (ids : List DpId) → EachBefore (λ a b. a.0 < b.0) (in_order ids) }
    ensures same { (ids : List DpId) (dp : DpId) → is_running (in_order ids) dp ≡ is_running ids dp }
    ensures already { (ids : List DpId) → EachBefore (λ a b. a.0 < b.0) ids → in_order ids ≡ ids }
{}

/// Each neighbour's address, of either family, can be asked for by a datapath with edge ports of its VLAN.
pub fn each_neighbour_can_be_asked_for()
    ensures { (d : Dp) (v : Vlan) (ip : Ip) → has_edge_member d v.vid ≡ true → is_neighbour_address v.vips ip ≡ true → is_some (ask_on d v ip) ≡ true }
{}
