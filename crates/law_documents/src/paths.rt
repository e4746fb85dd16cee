//! The laws: each function is empty, and its contract is the law.

ghost use Rattle.std.specs.Prelude.{◌≡◌, ◌⊎◌, None, Some, Err};
ghost use Rattle.yaml_tree.specs.declared.tree.Tree.{Tree};
ghost use Rattle.conf_shape.specs.declared.refused.ConfFault.{ConfFault};
ghost use Rattle.conf_shape.specs.Faults.{first_fault};
ghost use Rattle.conf_shape.specs.Raw.{raw_of};
ghost use Rattle.conf_resolve.specs.InOrder.{ordered};
ghost use Rattle.conf_resolve.specs.Resolved.{resolved};
ghost use Rattle.conf_check.specs.Accepted.{broken_rule, conf_of};
ghost use Rattle.law_documents.specs.Forms.{IsWritten};
ghost use Rattle.law_documents.specs.Leads.{PathLeads};
ghost use Rattle.law_documents.specs.Rules.{NamePathsLead, PortPathsLead, RoutingPathsLead, LimitPathsLead, IsOfNumbers};
ghost use Rattle.law_documents.specs.Shape.{IsOfMissing};

/// The paths of rules 1 to 7 lead to a number or a name, or to the part that has it as its key; where a name
/// stands for nothing, to one that no VLAN or no ACL has.
pub fn the_paths_of_names_lead_to_them()
    ensures { (t : Tree) → first_fault t ≡ None → NamePathsLead t (ordered (raw_of t)) (resolved (ordered (raw_of t))) }
{}

/// The paths of rules 8 to 11 lead to a port, the value of a match key, what `mirror` gives, or `stack`.
pub fn the_paths_of_ports_lead_to_them()
    ensures { (t : Tree) → first_fault t ≡ None → PortPathsLead t (ordered (raw_of t)) (resolved (ordered (raw_of t))) }
{}

/// The paths of rules 12 to 15 lead to the network of a VIP or a route, a gateway, or a VLAN that a router names.
pub fn the_paths_of_routes_lead_to_them()
    ensures { (t : Tree) → first_fault t ≡ None → RoutingPathsLead t (ordered (raw_of t)) (resolved (ordered (raw_of t))) }
{}

/// The paths of the limits lead to a map, or to the number of a VLAN, but for too many VLANs of which none is
/// written.
pub fn the_paths_of_limits_lead_to_parts()
    ensures { (t : Tree) → first_fault t ≡ None → LimitPathsLead t (ordered (raw_of t)) (resolved (ordered (raw_of t))) }
{}

/// The path of the rule that is told leads to a value that is written in the document, but for too many VLANs
/// of which none is written: there it is `vlans`.
pub fn the_path_of_a_broken_rule_leads_to_what_is_written()
    ensures { (t : Tree) (fault : ConfFault) → first_fault t ≡ None → broken_rule (raw_of t) ≡ Some fault → PathLeads t IsWritten fault ⊎ IsOfNumbers t fault }
{}

/// The path of a fault of the shape leads to a value that is written, or, where a key is missing, to the map
/// that lacks it, with the key behind.
pub fn the_path_of_a_fault_of_the_shape_leads_to_what_is_written()
    ensures { (t : Tree) (fault : ConfFault) → first_fault t ≡ Some fault → PathLeads t IsWritten fault ⊎ IsOfMissing t fault }
{}

/// So the path of each refusal leads into the document, but for too many VLANs of which none is written.
pub fn the_path_of_a_refusal_leads_into_the_document()
    ensures { (t : Tree) (fault : ConfFault) → conf_of t ≡ Err fault → PathLeads t IsWritten fault ⊎ (IsOfMissing t fault ⊎ IsOfNumbers t fault) }
{}
