//! Laws of the definitions: each function is empty, and its contract is the law.

ghost use Rattle.std.specs.Prelude.{Contains};
ghost use Rattle.std.specs.List.{AllByRecursion};
ghost use Rattle.net_base.specs.declared.numbers.DpId.{DpId};
ghost use Rattle.conf_types.specs.declared.datapath.Dp.{Dp};
ghost use Rattle.conf_types.specs.declared.vlan.Vlan.{Vlan};
ghost use Rattle.conf_types.specs.Configuration.{Configuration};
ghost use Rattle.conf_types.specs.Lists.{EachBefore};
ghost use Rattle.conf_types.specs.State.{State, IsValidState};
ghost use Rattle.conf_types.specs.Valid.{IsValid};
ghost use Rattle.packet_way.specs.Routes.{route_list};
ghost use Rattle.plan_base.specs.Accepted.{IsFlowEntry, HaveDistinctKeys};
ghost use Rattle.route_compile.specs.Prefixes.{SamePrefix, HaveAddresses};
ghost use Rattle.route_compile.specs.Routes.{fib};
ghost use Rattle.route_compile.specs.Vips.{vip_slice};

/// No two items of a route list have one prefix: a VIP is no neighbour, networks of VIPs don't
/// overlap, and no route leads into one or where another leads.
#[tactic(auto, using(crate::proofs::RoutingSet::item_laws))]
pub fn items_have_distinct_prefixes()
    ensures { (conf : Configuration) → IsValid conf → (state : State) → IsValidState conf state → (group : DpId)
        → (v : Vlan) → Contains conf.vlans v
        → EachBefore (λ a b. SamePrefix a b → ⊥) (route_list conf state.neighbours group v.vid) }
{}

/// A switch accepts each entry: its match is in order, with what each field asks for before it, each
/// field has its bits and a mask only where it takes one, and its instructions are well formed
/// (OpenFlow 1.3, 7.2.3 and 7.2.4).
#[tactic(auto, using(crate::proofs::Accepted::accepted_laws))]
pub fn entries_are_accepted()
    ensures routes { (conf : Configuration) → IsValid conf → (state : State) → IsValidState conf state → HaveAddresses state.neighbours
        → (d : Dp) (v : Vlan) → Contains conf.vlans v → AllByRecursion IsFlowEntry (fib conf state.neighbours d v) }
    ensures vips { (conf : Configuration) → IsValid conf → (d : Dp) (v : Vlan) → Contains conf.vlans v
        → AllByRecursion IsFlowEntry (vip_slice d v) }
{}

/// No two entries of a VLAN have one key.
#[tactic(auto, using(crate::proofs::Accepted::key_laws))]
pub fn keys_are_distinct()
    ensures routes { (conf : Configuration) → IsValid conf → (state : State) → IsValidState conf state → HaveAddresses state.neighbours
        → (d : Dp) (v : Vlan) → Contains conf.vlans v → HaveDistinctKeys (fib conf state.neighbours d v) }
    ensures vips { (conf : Configuration) → IsValid conf → (d : Dp) (v : Vlan) → Contains conf.vlans v
        → HaveDistinctKeys (vip_slice d v) }
{}
