//! The laws: the functions call those that they stand on, and their contracts are the laws. Of each the premise
//! `ComesIn` says how the packet came in: by an edge port without `hairpin`, past ACLs that let it on and send
//! nothing of it elsewhere, up to the step of known destinations. They ask nothing of mirrors, since the copies
//! that these get arrive at no edge port.

ghost use Rattle.std.specs.Prelude.{◌≡◌, ◌≤◌, ◌&&◌, ℕ, Bool, true, false, [], count_by};
ghost use Rattle.net_base.specs.declared.numbers.DpId.{DpId};
ghost use Rattle.of_match.specs.declared.packet.Packet.{Packet};
ghost use Rattle.stack_paths.specs.Chosen.{is_same_dp};
ghost use Rattle.stack_paths.specs.Stack.{IsJoined};
ghost use Rattle.conf_types.specs.declared.datapath.Dp.{Dp};
ghost use Rattle.conf_types.specs.declared.datapath.Port.{Port};
ghost use Rattle.conf_types.specs.declared.state.HostRec.{HostRec};
ghost use Rattle.conf_types.specs.declared.vlan.Vlan.{Vlan};
ghost use Rattle.conf_types.specs.Configuration.{Configuration};
ghost use Rattle.conf_types.specs.Membership.{is_edge_member};
ghost use Rattle.conf_types.specs.State.{State};
ghost use Rattle.packet_way.specs.Known.{stack_of};
ghost use Rattle.packet_way.specs.Leaving.{as_sent};
ghost use Rattle.net_walk.specs.Arrivals.{arrivals};
ghost use Rattle.law_network.specs.Coming.{LetOn, ComesIn, IsEdgePort, IsFlooded, may_flood, IsFor};
ghost use Rattle.law_network.specs.Visited.{arrives_at, visited};

/// Where no ACLs are attached they let every packet on, so of a network without any the laws below ask nothing
/// of ACLs.
pub fn no_acls_let_every_packet_on()
    ensures { (conf : Configuration) (d : Dp) (port : ℕ) (p : Packet) → LetOn conf d [] port p }
{}

/// A packet that is flooded where it came in arrives once at each edge port of the VLAN on each datapath that
/// links join to that one, where the flood may leave by the port, but not at the port that it came in by. What
/// arrives is the packet as the port sends it: it passes each test that this passes. It arrives at no edge port
/// outside the VLAN, and at none of a datapath that links don't join.
pub fn a_flood_reaches_each_member_once()
    ensures once { (conf : Configuration) (now : State) (d : Dp) (i : Port) (p : Packet) (w : Vlan) (y : Packet)
        → ComesIn conf now d i p w y → IsFlooded conf now d w y
        → (k : ℕ) → 64 ≤ k → (e : Dp) (q : Port) → IsEdgePort conf e q
        → IsJoined (stack_of conf now.ups) d.id e.id → is_edge_member q w.vid ≡ true → may_flood w y q ≡ true
        → (e.id ≡ d.id → q.no ≡ i.no → ⊥)
        → count_by (arrives_at e.id q.no) (arrivals conf now k d.id i.no p) ≡ 1 }
    ensures packet { (conf : Configuration) (now : State) (d : Dp) (i : Port) (p : Packet) (w : Vlan) (y : Packet)
        → ComesIn conf now d i p w y → IsFlooded conf now d w y
        → (k : ℕ) → 64 ≤ k → (e : Dp) (q : Port) → IsEdgePort conf e q
        → (test : Packet → Bool) → test (as_sent q w.vid y) ≡ true
        → IsJoined (stack_of conf now.ups) d.id e.id → is_edge_member q w.vid ≡ true → may_flood w y q ≡ true
        → (e.id ≡ d.id → q.no ≡ i.no → ⊥)
        → count_by (λ a. arrives_at e.id q.no a && test a.packet) (arrivals conf now k d.id i.no p) ≡ 1 }
    ensures back { (conf : Configuration) (now : State) (d : Dp) (i : Port) (p : Packet) (w : Vlan) (y : Packet)
        → ComesIn conf now d i p w y → IsFlooded conf now d w y
        → (k : ℕ) → 64 ≤ k → (e : Dp) (q : Port) → IsEdgePort conf e q
        → e.id ≡ d.id → q.no ≡ i.no
        → count_by (arrives_at e.id q.no) (arrivals conf now k d.id i.no p) ≡ 0 }
    ensures outside { (conf : Configuration) (now : State) (d : Dp) (i : Port) (p : Packet) (w : Vlan) (y : Packet)
        → ComesIn conf now d i p w y → IsFlooded conf now d w y
        → (k : ℕ) → 64 ≤ k → (e : Dp) (q : Port) → IsEdgePort conf e q
        → is_edge_member q w.vid ≡ false
        → count_by (arrives_at e.id q.no) (arrivals conf now k d.id i.no p) ≡ 0 }
    ensures elsewhere { (conf : Configuration) (now : State) (d : Dp) (i : Port) (p : Packet) (w : Vlan) (y : Packet)
        → ComesIn conf now d i p w y → IsFlooded conf now d w y
        → (k : ℕ) → 64 ≤ k → (e : Dp) (q : Port) → IsEdgePort conf e q
        → (IsJoined (stack_of conf now.ups) d.id e.id → ⊥)
        → count_by (arrives_at e.id q.no) (arrivals conf now k d.id i.no p) ≡ 0 }
{
    law_plans::cold::a_cold_start_sends_each_packet_as_described();
    law_tables::admission::table_1_admits_as_described();
    law_tables::routes::tables_4_to_6_route_as_described();
}

/// A packet whose destination is a host of the part arrives once at the host's port, as that port sends it, and at
/// no other edge port; where it came in by that very port, it arrives at none.
pub fn a_packet_for_a_host_reaches_it_once()
    ensures once { (conf : Configuration) (now : State) (d : Dp) (i : Port) (p : Packet) (w : Vlan) (y : Packet) (h : HostRec)
        → ComesIn conf now d i p w y → IsFor conf now d w y h
        → (k : ℕ) → 64 ≤ k → (e : Dp) (q : Port) → IsEdgePort conf e q
        → e.id ≡ h.dp → q.no ≡ h.port → (d.id ≡ h.dp → h.port ≡ i.no → ⊥)
        → count_by (arrives_at e.id q.no) (arrivals conf now k d.id i.no p) ≡ 1 }
    ensures packet { (conf : Configuration) (now : State) (d : Dp) (i : Port) (p : Packet) (w : Vlan) (y : Packet) (h : HostRec)
        → ComesIn conf now d i p w y → IsFor conf now d w y h
        → (k : ℕ) → 64 ≤ k → (e : Dp) (q : Port) → IsEdgePort conf e q
        → (test : Packet → Bool) → test (as_sent q w.vid y) ≡ true
        → e.id ≡ h.dp → q.no ≡ h.port → (d.id ≡ h.dp → h.port ≡ i.no → ⊥)
        → count_by (λ a. arrives_at e.id q.no a && test a.packet) (arrivals conf now k d.id i.no p) ≡ 1 }
    ensures back { (conf : Configuration) (now : State) (d : Dp) (i : Port) (p : Packet) (w : Vlan) (y : Packet) (h : HostRec)
        → ComesIn conf now d i p w y → IsFor conf now d w y h
        → (k : ℕ) → 64 ≤ k → (e : Dp) (q : Port) → IsEdgePort conf e q
        → d.id ≡ h.dp → h.port ≡ i.no
        → count_by (arrives_at e.id q.no) (arrivals conf now k d.id i.no p) ≡ 0 }
    ensures elsewhere { (conf : Configuration) (now : State) (d : Dp) (i : Port) (p : Packet) (w : Vlan) (y : Packet) (h : HostRec)
        → ComesIn conf now d i p w y → IsFor conf now d w y h
        → (k : ℕ) → 64 ≤ k → (e : Dp) (q : Port) → IsEdgePort conf e q
        → (e.id ≡ h.dp → q.no ≡ h.port → ⊥)
        → count_by (arrives_at e.id q.no) (arrivals conf now k d.id i.no p) ≡ 0 }
{
    law_plans::cold::a_cold_start_sends_each_packet_as_described();
    law_tables::admission::table_1_admits_as_described();
    law_tables::routes::tables_4_to_6_route_as_described();
}

/// No walk comes to one datapath twice: not in a row, and not on two of its branches either.
pub fn no_walk_comes_to_a_datapath_twice()
    ensures { (conf : Configuration) (now : State) (d : Dp) (i : Port) (p : Packet) (w : Vlan) (y : Packet)
        → ComesIn conf now d i p w y
        → (k : ℕ) → 64 ≤ k → (t : DpId) → count_by (is_same_dp t) (visited conf now k d.id i.no p) ≤ 1 }
{
    law_plans::cold::a_cold_start_sends_each_packet_as_described();
    law_tables::admission::table_1_admits_as_described();
    law_tables::routes::tables_4_to_6_route_as_described();
}

/// A walk over more than 64 datapaths in a row leads to the same arrivals, in the same order.
pub fn a_walk_is_whole_with_64_datapaths_in_a_row()
    ensures { (conf : Configuration) (now : State) (d : Dp) (i : Port) (p : Packet) (w : Vlan) (y : Packet)
        → ComesIn conf now d i p w y
        → (k : ℕ) → 64 ≤ k → arrivals conf now k d.id i.no p ≡ arrivals conf now 64 d.id i.no p }
{
    law_plans::cold::a_cold_start_sends_each_packet_as_described();
    law_tables::admission::table_1_admits_as_described();
    law_tables::routes::tables_4_to_6_route_as_described();
}
