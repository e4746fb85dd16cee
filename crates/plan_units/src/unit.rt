use net_base::{Mac, PortNo, Vid};

/// A part of a datapath's plan.
#[derive(Clone, Copy, Debug, PartialEq, Eq, PartialOrd, Ord)]
pub enum Unit {
    /// What stands once.
    Dp,
    /// An interface.
    Port(PortNo),
    /// A VLAN, but for its routes.
    Vlan(Vid),
    /// A host of the datapath's group.
    Host(Vid, Mac),
    /// The routes of a VLAN.
    Route(Vid),
}
