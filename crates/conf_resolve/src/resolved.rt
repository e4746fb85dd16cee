ghost use Rattle.std.specs.Prelude.{◌≡◌};

use conf_types::{Acls, Dps, Routers, Vlans};
use std::marker::Model;

/// What a raw configuration stands for, whether or not it is valid. Contracts see its four lists.
#[derive(Drop)]
pub struct Resolved {
    dps: Dps,
    vlans: Vlans,
    acls: Acls,
    routers: Routers,
}

impl Model for Resolved {
    ghost use Rattle.conf_types.specs.Configuration.{Configuration};

    ghost Value = { Configuration };

    ghost view = { λ c. record { dps = c.dps; vlans = c.vlans; acls = c.acls; routers = c.routers } };
}

impl Resolved {
    /// The configuration of these lists.
    pub fn new(dps: Dps, vlans: Vlans, acls: Acls, routers: Routers) -> Resolved
        ensures { result ≡ record { dps = dps; vlans = vlans; acls = acls; routers = routers } }
    {
        Resolved {
            dps,
            vlans,
            acls,
            routers,
        }
    }

    /// The datapaths, by the bytes of their names.
    pub fn dps(&self) -> &Dps
        ensures { result.now ≡ self.now.dps }
    {
        &self.dps
    }

    /// The VLANs, by their identifiers.
    pub fn vlans(&self) -> &Vlans
        ensures { result.now ≡ self.now.vlans }
    {
        &self.vlans
    }

    /// The ACLs, by the bytes of their names.
    pub fn acls(&self) -> &Acls
        ensures { result.now ≡ self.now.acls }
    {
        &self.acls
    }

    /// The routers, by the bytes of their names.
    pub fn routers(&self) -> &Routers
        ensures { result.now ≡ self.now.routers }
    {
        &self.routers
    }

    /// The lists themselves.
    pub fn into_lists(self) -> (Dps, Vlans, Acls, Routers)
        ensures { result ≡ (self.dps, self.vlans, self.acls, self.routers) }
    {
        (self.dps, self.vlans, self.acls, self.routers)
    }
}
