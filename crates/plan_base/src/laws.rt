//! Laws of the definitions: each function is empty, and its contract is the law.

ghost use Rattle.std.specs.Prelude.{◌≡◌, ◌<◌, ◌^◌, ℕ, List, Option};
ghost use Rattle.std.specs.List.{AllByRecursion};
ghost use Rattle.net_base.specs.declared.address.Mac.{Mac};
ghost use Rattle.net_base.specs.declared.field.Field.{Field};
ghost use Rattle.net_base.specs.Address.{IsSixBytes};
ghost use Rattle.net_base.specs.Field.{prefix_in};
ghost use Rattle.net_base.specs.Numbers.{IsVid, IsPortNo};
ghost use Rattle.net_base.specs.WellFormed.{Fits};
ghost use Rattle.of_match.specs.declared.action.Action.{Action};
ghost use Rattle.of_match.specs.declared.action.Action.TheVariants.{Output, PushVlan};
ghost use Rattle.of_match.specs.WellFormed.{IsAction, AreInstrs};
ghost use Rattle.conf_types.specs.declared.datapath.Dp.{Dp};
ghost use Rattle.conf_types.specs.declared.datapath.Port.{Port};
ghost use Rattle.conf_types.specs.declared.family.Family.{Family};
ghost use Rattle.plan_base.specs.declared.table.Table.{Table};
ghost use Rattle.plan_base.specs.Families.{IsFamily};
ghost use Rattle.plan_base.specs.Fields.{in_port, eth_dst, eth_src, group_dst, group_src, vid_field, untagged, arp_tpa, nd_target};
ghost use Rattle.plan_base.specs.MatchFields.{IsMatchField};
ghost use Rattle.plan_base.specs.Actions.{out, to_controller, to_ingress, push_tag, set_vid, set_eth_src, set_eth_dst};
ghost use Rattle.plan_base.specs.Entries.{leads_to};
ghost use Rattle.plan_base.specs.Sending.{sent};

/// Each field is one that a switch accepts, by its bits and its mask; so its value and its mask fit
/// its bytes (OpenFlow 1.3, 7.2.3.5 and 7.2.3.7).
#[tactic(auto, using(crate::proofs::MatchFields::field_laws))]
pub fn fields_are_accepted()
    ensures ports { (number : ℕ) → IsPortNo number → IsMatchField (in_port number) }
    ensures destinations { (mac : Mac) → IsSixBytes mac.0 → IsMatchField (eth_dst mac) }
    ensures sources { (mac : Mac) → IsSixBytes mac.0 → IsMatchField (eth_src mac) }
    ensures vlans { (vid : ℕ) → IsVid vid → IsMatchField (vid_field vid) }
    ensures groups { IsMatchField group_dst × IsMatchField group_src }
    ensures without_tag { IsMatchField untagged }
    ensures targets { (ip : ℕ) → ip < 2 ^ 32 → IsMatchField (arp_tpa ip) }
    ensures solicited { (ip : ℕ) → ip < 2 ^ 128 → IsMatchField (nd_target ip) }
    ensures prefixes { (f : Family) → IsFamily f → (ip len : ℕ) → ip < 2 ^ f.width → IsMatchField (prefix_in f.width f.destination ip len) }
    ensures fit { (f : Field) → IsMatchField f → Fits f }
{}

/// Each action is one that a switch accepts (OpenFlow 1.3, 7.2.5).
#[tactic(auto, using(crate::proofs::Accepted::action_laws))]
pub fn actions_are_accepted()
    ensures outs { (number : ℕ) → IsPortNo number → IsAction (out number) }
    ensures vlans { (vid : ℕ) → IsVid vid → IsAction (set_vid vid) }
    ensures sources { (mac : Mac) → IsSixBytes mac.0 → IsAction (set_eth_src mac) }
    ensures destinations { (mac : Mac) → IsSixBytes mac.0 → IsAction (set_eth_dst mac) }
    ensures sent { (d : Dp) (vid : ℕ) (q : Port) (by : Action) → AllByRecursion (λ p. IsPortNo p.no) d.ports
        → IsAction by → AllByRecursion IsAction (sent d vid q by) }
{}

/// Accepted actions, and a next table, are accepted instructions: APPLY_ACTIONS only with at least
/// one action, and GOTO_TABLE behind it (OpenFlow 1.3, 7.2.4).
#[tactic(auto, using(crate::proofs::Accepted::instruction_laws))]
pub fn what_leads_on_is_accepted()
    ensures { (actions : List Action) (next : Option Table) → AllByRecursion IsAction actions → AreInstrs (leads_to actions next) }
{}

/// The controller gets the whole packet by the number that stands for it, a packet goes back by the
/// number that stands for its ingress, and a tag has its type (OpenFlow 1.3, 7.2.1 and 7.2.5; IEEE
/// 802.1Q, 9.6).
pub fn actions_have_the_numbers_of_the_standard()
    ensures controller { to_controller ≡ Output 0xfffffffd 0xffff }
    ensures ingress { to_ingress ≡ Output 0xfffffff8 0 }
    ensures tag { push_tag ≡ PushVlan 0x8100 }
{}
