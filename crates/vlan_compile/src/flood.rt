use net_base::PortNo;

/// Which packets a flood is for.
#[derive(Clone, Copy, Debug, PartialEq, Eq)]
pub enum Flood {
    /// Those to a group address.
    Group,
    /// Those to a single address that isn't known.
    Unicast,
}

/// Where the packets of an entry come in.
#[derive(Clone, Copy, Debug, PartialEq, Eq)]
pub enum Ingress {
    Any,
    At(PortNo),
}
