//! Entries that are worked out by hand, against the definitions alone. The function does nothing:
//! its contract says which entries there are.

ghost use Rattle.std.specs.Prelude.{◌≡◌, [], ◌∷◌};
ghost use Rattle.net_base.specs.Field.{exact};
ghost use Rattle.net_base.specs.declared.field.FieldId.TheVariants.{InPort, EthType, VlanVid, VlanPcp, IpProto, TcpDst};
ghost use Rattle.of_match.specs.declared.action.Action.TheVariants.{Output};
ghost use Rattle.of_match.specs.declared.action.Instr.TheVariants.{Goto, Apply};
ghost use Rattle.acl_compile.specs.Slices.{port_acl, vlan_acl};
ghost use Rattle.acl_compile.specs.Worked.{row, conf, switch, first_port, office};

/// Two ACLs at port 1 and in VLAN 100: their rules are numbered through. Port 3 is disabled, and a
/// rule at a port doesn't send back by it. In the VLAN the rule for VLAN 200 has no entry, and the
/// rule for VLAN 100 has its tag once.
pub fn entries_of_two_acls()
    ensures port { port_acl conf switch first_port
        ≡ row 0 10000 (exact InPort 1 ∷ exact EthType 0x0800 ∷ exact IpProto 6 ∷ exact TcpDst 80 ∷ []) (Apply (Output 4 0 ∷ Output 2 0 ∷ []) ∷ Goto 1 ∷ [])
        ∷ row 0 9999 (exact InPort 1 ∷ exact VlanVid 0x10c8 ∷ exact VlanPcp 3 ∷ []) (Goto 1 ∷ [])
        ∷ row 0 9998 (exact InPort 1 ∷ exact VlanVid 0x1064 ∷ exact VlanPcp 3 ∷ []) (Goto 1 ∷ [])
        ∷ row 0 1 (exact InPort 1 ∷ []) []
        ∷ [] }
    ensures vlan { vlan_acl conf switch office
        ≡ row 2 10000 (exact EthType 0x0800 ∷ exact VlanVid 0x1064 ∷ exact IpProto 6 ∷ exact TcpDst 80 ∷ []) (Apply (Output 4 0 ∷ Output 2 0 ∷ Output 1 0 ∷ []) ∷ Goto 3 ∷ [])
        ∷ row 2 9998 (exact VlanVid 0x1064 ∷ exact VlanPcp 3 ∷ []) (Goto 3 ∷ [])
        ∷ row 2 1 (exact VlanVid 0x1064 ∷ []) []
        ∷ [] }
{}
