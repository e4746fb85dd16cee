ghost use Rattle.std.specs.Prelude.{◌≡◌};
ghost use Rattle.plan_base.specs.Entries.{table_number};

/// The nine flow tables, in the order in which a packet goes through them (OpenFlow 1.3, 5.1).
#[derive(Clone, Copy, Debug, PartialEq, Eq)]
pub enum Table {
    /// Table 0: which ports take packets in, and their ACLs.
    PortAcl,
    /// Table 1: what is dropped, and which VLAN admits a packet.
    Admission,
    /// Table 2: the ACLs of VLANs.
    VlanAcl,
    /// Table 3: where a packet comes from.
    Source,
    /// Table 4: the routes of IPv4.
    Ipv4Route,
    /// Table 5: the routes of IPv6.
    Ipv6Route,
    /// Table 6: what is for a VLAN's gateway itself.
    Vip,
    /// Table 7: hosts that are known.
    Destination,
    /// Table 8: everything else.
    Flood,
}

impl Table {
    /// The table's number.
    pub fn number(self) -> u8
        ensures { result ≡ table_number self }
    {
        match self {
            Table::PortAcl => 0,
            Table::Admission => 1,
            Table::VlanAcl => 2,
            Table::Source => 3,
            Table::Ipv4Route => 4,
            Table::Ipv6Route => 5,
            Table::Vip => 6,
            Table::Destination => 7,
            Table::Flood => 8,
        }
    }
}
