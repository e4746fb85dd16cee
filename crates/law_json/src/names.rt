//! The laws: each function is empty, and its contract is the law.

ghost use Rattle.std.specs.Prelude.{◌≡◌, ◌∷◌, [], List, ℕ, decimal, codes, length, Contains};
ghost use Rattle.conf_types.specs.declared.acl.Acl.{Acl};
ghost use Rattle.conf_types.specs.declared.datapath.Dp.{Dp};
ghost use Rattle.conf_types.specs.declared.datapath.Port.{Port};
ghost use Rattle.conf_types.specs.declared.vlan.Route.{Route};
ghost use Rattle.conf_types.specs.declared.vlan.Router.{Router};
ghost use Rattle.conf_types.specs.declared.vlan.Vlan.{Vlan};
ghost use Rattle.conf_types.specs.Configuration.{Configuration};
ghost use Rattle.conf_types.specs.Valid.{IsValid};
ghost use Rattle.conf_json.specs.Text.{json_text, numbers_text, route_text};
ghost use Rattle.law_json.specs.Named.{Leads, ShowsPort, ShowsDp, ShowsRoute, ShowsVlan};

/// Each datapath stands under its name, and each of its values under the name of its key.
pub fn datapaths_stand_under_their_names()
    ensures { (conf : Configuration) → IsValid conf → (d : Dp) → Contains conf.dps d
        → Leads (json_text conf) (codes "dps" ∷ d.name ∷ []) (ShowsDp d) }
{}

/// Each interface stands under its number below its datapath, and each of its values under the name of its key.
pub fn interfaces_stand_under_their_numbers()
    ensures { (conf : Configuration) → IsValid conf → (d : Dp) → Contains conf.dps d → (p : Port) → Contains d.ports p
        → Leads (json_text conf) (codes "dps" ∷ d.name ∷ codes "interfaces" ∷ decimal p.no ∷ []) (ShowsPort conf p) }
{}

/// Each VLAN stands under its number, and each of its values under the name of its key; so do those of a route.
pub fn vlans_stand_under_their_numbers()
    ensures vlans { (conf : Configuration) → IsValid conf → (v : Vlan) → Contains conf.vlans v
        → Leads (json_text conf) (codes "vlans" ∷ decimal v.vid ∷ []) (ShowsVlan v) }
    ensures routes { (route : Route) → ShowsRoute route (route_text route) }
{}

/// Under the name of each ACL stands how many rules it has, and under that of each router stand its VLANs.
pub fn acls_and_routers_stand_under_their_names()
    ensures acls { (conf : Configuration) → IsValid conf → (acl : Acl) → Contains conf.acls acl
        → Leads (json_text conf) (codes "acls" ∷ acl.name ∷ []) (λ text. text ≡ decimal (length acl.rules)) }
    ensures routers { (conf : Configuration) → IsValid conf → (r : Router) → Contains conf.routers r
        → Leads (json_text conf) (codes "routers" ∷ r.name ∷ []) (λ text. text ≡ numbers_text r.vlans) }
{}
