//! Laws of the definitions: each function is empty, and its contract is the law.

ghost use Rattle.std.specs.Prelude.{◌≡◌, ℕ, true, List, Contains};
ghost use Rattle.std.specs.List.{AllByRecursion};
ghost use Rattle.net_base.specs.Address.{IsSixBytes};
ghost use Rattle.stack_paths.specs.Stack.{Stack};
ghost use Rattle.conf_types.specs.declared.datapath.Dp.{Dp};
ghost use Rattle.conf_types.specs.declared.datapath.Port.{Port};
ghost use Rattle.conf_types.specs.declared.state.HostRec.{HostRec};
ghost use Rattle.conf_types.specs.declared.vlan.Vlan.{Vlan};
ghost use Rattle.conf_types.specs.Configuration.{Configuration};
ghost use Rattle.conf_types.specs.Links.{links};
ghost use Rattle.conf_types.specs.Membership.{is_accepting, has_edge_member};
ghost use Rattle.conf_types.specs.State.{State, IsValidState};
ghost use Rattle.conf_types.specs.Valid.{IsValid};
ghost use Rattle.plan_base.specs.Accepted.{IsFlowEntry, HaveDistinctKeys};
ghost use Rattle.vlan_compile.specs.Vlans.{vlans_of};
ghost use Rattle.vlan_compile.specs.Admissions.{admissions};
ghost use Rattle.vlan_compile.specs.Sources.{sources};
ghost use Rattle.vlan_compile.specs.Misses.{misses};
ghost use Rattle.vlan_compile.specs.Destinations.{destinations};
ghost use Rattle.vlan_compile.specs.Floods.{floods};

/// A switch accepts each entry: its match is in order, with what each field asks for before it, each
/// field has its bits and a mask only where it takes one, and its instructions are well formed
/// (OpenFlow 1.3, 7.2.3 and 7.2.4). An Ethernet address has six bytes, and the links of the stack are
/// those that are up.
#[tactic(auto, using(crate::proofs::Accepted::accepted_laws))]
pub fn entries_are_accepted()
    ensures admissions { (conf : Configuration) → IsValid conf → (d : Dp) → Contains conf.dps d → (i : Port) → Contains d.ports i
        → AllByRecursion IsFlowEntry (admissions conf d i) }
    ensures misses { (conf : Configuration) → IsValid conf → (d : Dp) → Contains conf.dps d → (i : Port) → Contains d.ports i
        → (hosts : List HostRec) → AllByRecursion IsFlowEntry (misses conf d i hosts) }
    ensures sources { (conf : Configuration) → IsValid conf → (d : Dp) → Contains conf.dps d
        → (state : State) → IsValidState conf state → (h : HostRec) → Contains state.hosts h → IsSixBytes h.mac.0
        → (moment : ℕ) → AllByRecursion IsFlowEntry (sources conf d h moment) }
    ensures destinations { (conf : Configuration) → IsValid conf → (d : Dp) → Contains conf.dps d
        → (state : State) → IsValidState conf state → (h : HostRec) → Contains state.hosts h → IsSixBytes h.mac.0
        → (stack : Stack) → stack.links ≡ links conf state.ups → AllByRecursion IsFlowEntry (destinations d h stack) }
    ensures floods { (conf : Configuration) → IsValid conf → (d : Dp) → Contains conf.dps d → (v : Vlan) → Contains conf.vlans v
        → (stack : Stack) → AllByRecursion IsFlowEntry (floods d v stack) }
{}

/// No two entries of an interface, of a host or of a VLAN have one key, so a switch holds each of them
/// (OpenFlow 1.3, 6.4).
#[tactic(auto, using(crate::proofs::Keys::key_laws))]
pub fn keys_are_distinct()
    ensures admissions { (conf : Configuration) → IsValid conf → (d : Dp) → Contains conf.dps d → (i : Port) → Contains d.ports i
        → HaveDistinctKeys (admissions conf d i) }
    ensures misses { (conf : Configuration) → IsValid conf → (d : Dp) → Contains conf.dps d → (i : Port) → Contains d.ports i
        → (hosts : List HostRec) → HaveDistinctKeys (misses conf d i hosts) }
    ensures sources { (conf : Configuration) (d : Dp) (h : HostRec) (moment : ℕ) → HaveDistinctKeys (sources conf d h moment) }
    ensures destinations { (d : Dp) (h : HostRec) (stack : Stack) → HaveDistinctKeys (destinations d h stack) }
    ensures floods { (conf : Configuration) → IsValid conf → (d : Dp) → Contains conf.dps d → (v : Vlan) → (stack : Stack)
        → HaveDistinctKeys (floods d v stack) }
{}

/// The datapath of a port that takes packets in has an edge port of each VLAN that it admits, so that
/// their ACLs are attached there.
#[tactic(auto, using(crate::proofs::Members::members_are))]
pub fn an_admitted_vlan_has_a_member()
    ensures { (conf : Configuration) → IsValid conf → (d : Dp) (i : Port) → Contains d.ports i → is_accepting i ≡ true
        → (v : Vlan) → Contains (vlans_of conf i) v → has_edge_member d v.vid ≡ true }
{}
