//! What holds of the definitions. The functions do nothing: their contracts are the laws.

ghost use Rattle.std.specs.Prelude.{◌<◌, ◌⊎◌, List, Contains};
ghost use Rattle.net_base.specs.declared.numbers.DpId.{DpId};
ghost use Rattle.net_base.specs.declared.stack.StackLink.{StackLink};
ghost use Rattle.conf_types.specs.declared.state.UpRec.{UpRec};
ghost use Rattle.conf_types.specs.Configuration.{Configuration};
ghost use Rattle.conf_types.specs.Groups.{IsDp, IsGroup, group_of};
ghost use Rattle.conf_types.specs.Links.{IsLinkUp, turned, links};
ghost use Rattle.conf_types.specs.Lists.{AreDistinct};
ghost use Rattle.conf_types.specs.Valid.{IsValid};

/// The number of a datapath's group is the least identifier among all datapaths that walks over
/// stack links lead to.
pub fn a_group_has_the_least_identifier_that_is_joined()
    ensures { (conf : Configuration) (dp : DpId) → IsDp conf dp → IsGroup conf dp (group_of conf dp) }
{}

/// Whichever ports are up, `links` of a valid configuration has just the stack links of which both
/// ends are enabled and up. Of the two directions of each it has the one that begins on the datapath
/// with the lesser identifier, once.
pub fn each_link_that_is_up_is_listed_once()
    ensures up { (conf : Configuration) (ups : List UpRec) (l : StackLink) → IsValid conf → Contains (links conf ups) l → IsLinkUp conf ups l }
    ensures listed { (conf : Configuration) (ups : List UpRec) (l : StackLink) → IsValid conf → IsLinkUp conf ups l
        → Contains (links conf ups) l ⊎ Contains (links conf ups) (turned l) }
    ensures direction { (conf : Configuration) (ups : List UpRec) (l : StackLink) → IsValid conf → Contains (links conf ups) l → l.a.0 < l.b.0 }
    ensures once { (conf : Configuration) (ups : List UpRec) → IsValid conf → AreDistinct (links conf ups) }
{}
