//! What holds of the description, whatever a packet holds. The functions do nothing: their contracts
//! are the laws.

ghost use Rattle.std.specs.Prelude.{◌≡◌, ◌≢◌, ◌⊎◌, ◌==◌, ◌&&◌, ◌||◌, ◌≤◌, ℕ, true, false, Some, None, List, [], All, IsSomeAnd, count_by, IsPermutation, if◌then◌else◌};
ghost use Rattle.net_base.specs.Address.{is_group};
ghost use Rattle.net_base.specs.declared.numbers.DpId.{DpId};
ghost use Rattle.of_match.specs.declared.action.TheConstants.{CONTROLLER};
ghost use Rattle.of_match.specs.declared.packet.Packet.{Packet};
ghost use Rattle.stack_paths.specs.Stack.{IsStack};
ghost use Rattle.stack_paths.specs.Chosen.{hop_of, is_tree_port};
ghost use Rattle.conf_types.specs.declared.datapath.Dp.{Dp};
ghost use Rattle.conf_types.specs.declared.datapath.Port.{Port};
ghost use Rattle.conf_types.specs.Configuration.{Configuration, dp_with, port_with, port_at};
ghost use Rattle.conf_types.specs.Membership.{is_edge, is_stack, is_accepting, is_edge_member, member_of};
ghost use Rattle.conf_types.specs.declared.datapath.Member.TheVariants.{Native, Tagged, Stack};
ghost use Rattle.conf_types.specs.declared.state.HostRec.{HostRec};
ghost use Rattle.conf_types.specs.declared.state.UpRec.{UpRec};
ghost use Rattle.conf_types.specs.declared.vlan.Vlan.{Vlan};
ghost use Rattle.conf_types.specs.State.{State, IsValidState};
ghost use Rattle.conf_types.specs.Valid.{IsValid};
ghost use Rattle.packet_way.specs.Description.{is_bare_lldp, leaving, sends};
ghost use Rattle.packet_way.specs.Flood.{gets_flood, flooded};
ghost use Rattle.packet_way.specs.Known.{stack_of};
ghost use Rattle.packet_way.specs.Leaving.{to_controller, without_tag};
ghost use Rattle.packet_way.specs.Verdict.{is_allowed, acl_sends};

/// The datapaths of a configuration with the stack links that are up are a stack, so that what
/// stack_paths says of distances, next hops and trees holds of the way.
pub fn the_datapaths_with_their_links_are_a_stack()
    ensures { (conf : Configuration) (ups : List UpRec) → IsValid conf → IsStack (stack_of conf ups) }
{}

/// The next hops of a datapath, and the ports that it has in a tree, are its enabled ends of stack links.
pub fn the_stack_goes_over_ends_of_links()
    ensures hops { (conf : Configuration) (ups : List UpRec) (id to : DpId) (hop : ℕ)
        → IsValid conf → hop_of (stack_of conf ups) id to ≡ Some hop → IsSomeAnd (port_at conf id hop) (λ q. is_stack q ≡ true) }
    ensures tree { (conf : Configuration) (ups : List UpRec) (id : DpId) (number : ℕ)
        → IsValid conf → is_tree_port (stack_of conf ups) id number ≡ true → IsSomeAnd (port_at conf id number) (λ q. is_stack q ≡ true) }
{}

/// Nothing is sent of a packet by a port that takes none in: one that is no interface, or a disabled
/// one, or one that is output-only or mirrors others.
pub fn a_port_that_takes_nothing_in_sends_nothing()
    ensures unknown { (conf : Configuration) (now : State) (id : DpId) (port : ℕ) (p : Packet)
        → port_at conf id port ≡ None → sends conf now id port p ≡ [] }
    ensures disabled { (conf : Configuration) (now : State) (id : DpId) (port : ℕ) (i : Port) (p : Packet)
        → port_at conf id port ≡ Some i → i.enabled ≡ false → sends conf now id port p ≡ [] }
    ensures output_only { (conf : Configuration) (now : State) (id : DpId) (port : ℕ) (i : Port) (p : Packet)
        → IsValid conf → port_at conf id port ≡ Some i → i.output_only ≡ true → sends conf now id port p ≡ [] }
    ensures mirror { (conf : Configuration) (now : State) (id : DpId) (port : ℕ) (i : Port) (p : Packet)
        → IsValid conf → port_at conf id port ≡ Some i → i.mirror ≢ [] → sends conf now id port p ≡ [] }
{}

/// What is sent leaves by enabled interfaces of the datapath, or goes to the controller.
pub fn only_enabled_interfaces_send()
    ensures { (conf : Configuration) (now : State) (id : DpId) (port : ℕ) (p : Packet)
        → IsValid conf → IsValidState conf now
        → All (λ s. (s.port ≡ CONTROLLER) ⊎ IsSomeAnd (port_at conf id s.port) (λ q. q.enabled ≡ true)) (sends conf now id port p) }
{}

/// A packet that the ACLs of its port deny goes where the rule sends it, as it came, and nowhere else.
pub fn a_denied_packet_goes_where_the_rule_sends_it()
    ensures { (conf : Configuration) (now : State) (id : DpId) (port : ℕ) (d : Dp) (i : Port) (p : Packet)
        → dp_with conf.dps id ≡ Some d → port_with d.ports port ≡ Some i → is_accepting i ≡ true
        → is_allowed conf i.acls i.no p ≡ false
        → sends conf now id port p ≡ acl_sends conf d i.acls i.no p }
{}

/// Nothing goes back by the port that a packet came in by, unless that port has `hairpin`.
pub fn nothing_goes_back_without_hairpin()
    ensures { (conf : Configuration) (now : State) (id : DpId) (port : ℕ) (i : Port) (p : Packet)
        → IsValid conf → port_at conf id port ≡ Some i → i.hairpin ≡ false
        → All (λ s. s.port ≢ port) (sends conf now id port p) }
{}

/// The controller gets at most two copies of a packet: one from which it learns the source, and one by
/// routing. A group address is no source to learn, and without a VIP nothing is routed. LLDP from an
/// end of a stack link is the controller's alone.
pub fn the_controller_gets_one_copy_by_the_source_and_one_by_routing()
    ensures both { (conf : Configuration) (now : State) (id : DpId) (port : ℕ) (p : Packet)
        → IsValid conf → count_by (λ s. s.port == CONTROLLER) (sends conf now id port p) ≤ 2 }
    ensures routed { (conf : Configuration) (now : State) (id : DpId) (port : ℕ) (p : Packet)
        → IsValid conf → is_group p.src ≡ true → count_by (λ s. s.port == CONTROLLER) (sends conf now id port p) ≤ 1 }
    ensures learned { (conf : Configuration) (now : State) (id : DpId) (port : ℕ) (p : Packet)
        → IsValid conf → All (λ v. v.vips ≡ []) conf.vlans → count_by (λ s. s.port == CONTROLLER) (sends conf now id port p) ≤ 1 }
    ensures told { (conf : Configuration) (now : State) (id : DpId) (port : ℕ) (i : Port) (p : Packet)
        → port_at conf id port ≡ Some i → is_stack i ≡ true → is_bare_lldp p ≡ true → sends conf now id port p ≡ to_controller p }
{}

/// Of a flood a port that mirrors none gets one copy, if it is to get floods, and else none. No edge
/// port outside the VLAN is.
pub fn a_flood_goes_once_to_each_port_that_is_to_get_it()
    ensures once { (conf : Configuration) (ups : List UpRec) (id : DpId) (d : Dp) (v : Vlan) (port : ℕ) (p : Packet) (q : Port)
        → IsValid conf → dp_with conf.dps id ≡ Some d → port_with d.ports q.no ≡ Some q → q.mirror ≡ []
        → count_by (λ s. s.port == q.no) (flooded (stack_of conf ups) d port v p)
        ≡ (if (is_group p.dst || v.unicast_flood) && gets_flood (stack_of conf ups) d port v p q then 1 else 0) }
    ensures outside { (conf : Configuration) (ups : List UpRec) (id : DpId) (d : Dp) (v : Vlan) (port : ℕ) (p : Packet) (q : Port)
        → IsValid conf → dp_with conf.dps id ≡ Some d → port_with d.ports q.no ≡ Some q → is_edge q ≡ true → is_edge_member q v.vid ≡ false
        → gets_flood (stack_of conf ups) d port v p q ≡ false }
{}

/// A packet of a VLAN leaves by no edge port outside the VLAN, to a known destination and in a flood alike.
pub fn a_packet_of_a_vlan_stays_in_the_vlan()
    ensures { (conf : Configuration) (now : State) (id : DpId) (d : Dp) (v : Vlan) (port : ℕ) (p : Packet) (q : Port)
        → IsValid conf → IsValidState conf now → dp_with conf.dps id ≡ Some d → port_with d.ports q.no ≡ Some q
        → is_edge q ≡ true → is_edge_member q v.vid ≡ false
        → All (λ s. s.port ≢ q.no) (leaving conf now d port v p) }
{}

/// As a known destination and in a flood alike, a native member of a VLAN gets the packet without its
/// outermost tag, and a tagged one and the far end of a stack link get it with the tag.
pub fn a_member_gets_the_packet_with_its_tag_unless_it_is_native()
    ensures native { (conf : Configuration) (now : State) (id : DpId) (d : Dp) (v : Vlan) (port : ℕ) (p : Packet) (q : Port)
        → IsValid conf → dp_with conf.dps id ≡ Some d → port_with d.ports q.no ≡ Some q → member_of q v.vid ≡ Native
        → All (λ s. s.port ≡ q.no → s.packet ≡ without_tag p) (leaving conf now d port v p) }
    ensures tagged { (conf : Configuration) (now : State) (id : DpId) (d : Dp) (v : Vlan) (port : ℕ) (p : Packet) (q : Port)
        → IsValid conf → dp_with conf.dps id ≡ Some d → port_with d.ports q.no ≡ Some q → member_of q v.vid ≡ Tagged
        → All (λ s. s.port ≡ q.no → s.packet ≡ p) (leaving conf now d port v p) }
    ensures stack { (conf : Configuration) (now : State) (id : DpId) (d : Dp) (v : Vlan) (port : ℕ) (p : Packet) (q : Port)
        → IsValid conf → dp_with conf.dps id ≡ Some d → port_with d.ports q.no ≡ Some q → member_of q v.vid ≡ Stack
        → All (λ s. s.port ≡ q.no → s.packet ≡ p) (leaving conf now d port v p) }
{}

/// The way doesn't hang on the order in which hosts were learned.
pub fn the_order_of_hosts_changes_nothing()
    ensures { (conf : Configuration) (now : State) (hosts : List HostRec) (id : DpId) (port : ℕ) (p : Packet)
        → IsValidState conf now → IsPermutation now.hosts hosts
        → sends conf (record now { hosts = hosts }) id port p ≡ sends conf now id port p }
{}
