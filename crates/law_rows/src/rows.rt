//! Entries that are worked out by hand, against the definitions alone. The functions do nothing: their
//! contracts say which entries there are.

ghost use Rattle.std.specs.Prelude.{◌≡◌, true, Some, None, [], ◌∷◌};
ghost use Rattle.net_base.specs.Field.{exact};
ghost use Rattle.net_base.specs.declared.field.FieldId.TheVariants.{InPort, EthDst, EthSrc, EthType, VlanVid};
ghost use Rattle.of_match.specs.declared.action.Action.TheVariants.{Output, PushVlan, PopVlan, Set};
ghost use Rattle.of_match.specs.declared.action.Instr.TheVariants.{Goto, Apply};
ghost use Rattle.plan_units.specs.Fixed.{drops, from_group, passes};
ghost use Rattle.vlan_compile.specs.Admissions.{admissions};
ghost use Rattle.vlan_compile.specs.Destinations.{destinations};
ghost use Rattle.vlan_compile.specs.Floods.{floods};
ghost use Rattle.vlan_compile.specs.Misses.{misses};
ghost use Rattle.vlan_compile.specs.Sources.{sources};
ghost use Rattle.law_rows.specs.Worked.{row, any_group_src, any_group_dst, native_port, tagged_port, hairpin_port, stack_port, mirror_port, switch, office, conf, stack, host};

/// Table 1: what comes without a tag is copied to the mirror as it came, and only then gets its tag; a
/// tagged packet goes on to table 2 in a VLAN with ACLs and to table 3 in any other; what comes over the
/// stack goes on to table 7, but for LLDP without a tag, which the controller alone gets; a port that
/// mirrors another takes nothing in.
pub fn admission()
    ensures native { admissions conf switch native_port
        ≡ row 1 20 (exact InPort 1 ∷ exact VlanVid 0 ∷ []) (Apply (Output 5 0 ∷ PushVlan 0x8100 ∷ Set (exact VlanVid 0x1064) ∷ []) ∷ Goto 3 ∷ [])
        ∷ [] }
    ensures tagged { admissions conf switch tagged_port
        ≡ row 1 20 (exact InPort 2 ∷ exact VlanVid 0x1064 ∷ []) (Goto 3 ∷ [])
        ∷ row 1 20 (exact InPort 2 ∷ exact VlanVid 0x10c8 ∷ []) (Goto 2 ∷ [])
        ∷ [] }
    ensures stack { admissions conf switch stack_port
        ≡ row 1 40 (exact InPort 4 ∷ exact EthType 0x88cc ∷ exact VlanVid 0 ∷ []) (Apply (Output 0xfffffffd 0xffff ∷ []) ∷ [])
        ∷ row 1 40 (exact InPort 4 ∷ exact VlanVid 0x1064 ∷ []) (Goto 7 ∷ [])
        ∷ row 1 40 (exact InPort 4 ∷ exact VlanVid 0x10c8 ∷ []) (Goto 7 ∷ [])
        ∷ [] }
    ensures mirror { admissions conf switch mirror_port ≡ [] }
{}

/// Table 1, what is dropped: what bridges say to each other, LLDP, what claims to come from the broadcast
/// address or from a gateway (IEEE 802.1D, 7.12.3; IEEE 802.1AB, 7.3; IEEE 802, 8.2); and of any group
/// address nothing is learned in table 3.
pub fn dropped_at_once()
    ensures drops { drops conf switch
        ≡ row 1 33 (exact EthDst 0x01000ccccccd ∷ []) []
        ∷ row 1 33 (exact EthDst 0x0180c2000000 ∷ []) []
        ∷ row 1 32 (exact EthType 0x88cc ∷ []) []
        ∷ row 1 31 (exact EthSrc 0xffffffffffff ∷ []) []
        ∷ row 1 30 (exact EthSrc 0x0e0000000001 ∷ []) []
        ∷ [] }
    ensures groups { from_group ≡ row 3 40 (any_group_src ∷ []) (Goto 4 ∷ []) }
    ensures passes { passes ≡ row 4 0 [] (Goto 5 ∷ []) ∷ row 5 0 [] (Goto 6 ∷ []) ∷ row 6 0 [] (Goto 7 ∷ []) ∷ row 7 0 [] (Goto 8 ∷ []) ∷ [] }
{}

/// Table 3: a host at its port goes on, and the controller gets a copy first where it is stale, which it
/// is 300 seconds after it was heard; the address of one that stays ends at all other ports, also on
/// another datapath of the group.
pub fn known_sources()
    ensures fresh { sources conf switch (host 1 1 1) 299999
        ≡ row 3 30 (exact InPort 1 ∷ exact EthSrc 0x020000000001 ∷ exact VlanVid 0x1064 ∷ []) (Goto 4 ∷ [])
        ∷ [] }
    ensures stale { sources conf switch (host 1 1 1) 300000
        ≡ row 3 30 (exact InPort 1 ∷ exact EthSrc 0x020000000001 ∷ exact VlanVid 0x1064 ∷ []) (Apply (Output 0xfffffffd 0xffff ∷ []) ∷ Goto 4 ∷ [])
        ∷ [] }
    ensures stays_elsewhere { sources conf switch (host 2 1 2) 300000
        ≡ row 3 20 (exact EthSrc 0x020000000002 ∷ exact VlanVid 0x1064 ∷ []) []
        ∷ [] }
    ensures elsewhere { sources conf switch (host 2 2 2) 0 ≡ [] }
{}

/// Table 3: of a source that isn't known the controller gets a copy, and the packet goes on; where no
/// further host may be learned it goes on alone, and where the port keeps the host that it has it ends.
pub fn other_sources()
    ensures copied { misses conf switch tagged_port []
        ≡ row 3 10 (exact InPort 2 ∷ exact VlanVid 0x1064 ∷ []) (Apply (Output 0xfffffffd 0xffff ∷ []) ∷ Goto 4 ∷ [])
        ∷ row 3 10 (exact InPort 2 ∷ exact VlanVid 0x10c8 ∷ []) (Apply (Output 0xfffffffd 0xffff ∷ []) ∷ Goto 4 ∷ [])
        ∷ [] }
    ensures full { misses conf switch (record native_port { max_hosts = 1 }) (host 1 1 1 ∷ [])
        ≡ row 3 10 (exact InPort 1 ∷ exact VlanVid 0x1064 ∷ []) (Goto 4 ∷ [])
        ∷ [] }
    ensures taken { misses conf switch (record native_port { permanent_learn = true }) (host 1 1 1 ∷ [])
        ≡ row 3 10 (exact InPort 1 ∷ exact VlanVid 0x1064 ∷ []) []
        ∷ [] }
{}

/// Table 7: to a host by its port without the tag where the VLAN is native, and then to the mirror; from
/// that port nothing, or back by OFPP_IN_PORT with `hairpin`; to a host elsewhere over the stack, with
/// the tag.
pub fn known_destinations()
    ensures native { destinations switch (host 1 1 1) stack
        ≡ row 7 20 (exact InPort 1 ∷ exact EthDst 0x020000000001 ∷ exact VlanVid 0x1064 ∷ []) []
        ∷ row 7 10 (exact EthDst 0x020000000001 ∷ exact VlanVid 0x1064 ∷ []) (Apply (PopVlan ∷ Output 1 0 ∷ Output 5 0 ∷ []) ∷ [])
        ∷ [] }
    ensures tagged { destinations switch (host 1 2 2) stack
        ≡ row 7 20 (exact InPort 2 ∷ exact EthDst 0x020000000002 ∷ exact VlanVid 0x1064 ∷ []) []
        ∷ row 7 10 (exact EthDst 0x020000000002 ∷ exact VlanVid 0x1064 ∷ []) (Apply (Output 2 0 ∷ []) ∷ [])
        ∷ [] }
    ensures hairpin { destinations switch (host 1 3 3) stack
        ≡ row 7 20 (exact InPort 3 ∷ exact EthDst 0x020000000003 ∷ exact VlanVid 0x1064 ∷ []) (Apply (PopVlan ∷ Output 0xfffffff8 0 ∷ []) ∷ [])
        ∷ row 7 10 (exact EthDst 0x020000000003 ∷ exact VlanVid 0x1064 ∷ []) (Apply (PopVlan ∷ Output 3 0 ∷ []) ∷ [])
        ∷ [] }
    ensures elsewhere { destinations switch (host 2 1 4) stack
        ≡ row 7 10 (exact EthDst 0x020000000004 ∷ exact VlanVid 0x1064 ∷ []) (Apply (Output 4 0 ∷ []) ∷ [])
        ∷ [] }
{}

/// Table 8: first the ports that send with the tag, ascending, then without it those where the VLAN is
/// native, each followed by its mirror. A port that is mirrored has entries of its own, without itself
/// and its mirror; so has one with `hairpin`, which stands there as OFPP_IN_PORT.
pub fn floods_of_a_vlan()
    ensures { floods switch office stack
        ≡ row 8 10 (exact VlanVid 0x1064 ∷ []) (Apply (Output 4 0 ∷ PopVlan ∷ Output 1 0 ∷ Output 5 0 ∷ Output 3 0 ∷ []) ∷ [])
        ∷ row 8 20 (exact InPort 1 ∷ exact VlanVid 0x1064 ∷ []) (Apply (Output 4 0 ∷ PopVlan ∷ Output 3 0 ∷ []) ∷ [])
        ∷ row 8 20 (exact InPort 3 ∷ exact VlanVid 0x1064 ∷ []) (Apply (Output 4 0 ∷ PopVlan ∷ Output 1 0 ∷ Output 5 0 ∷ Output 0xfffffff8 0 ∷ []) ∷ [])
        ∷ row 8 30 (any_group_dst ∷ exact VlanVid 0x1064 ∷ []) (Apply (Output 2 0 ∷ Output 4 0 ∷ PopVlan ∷ Output 1 0 ∷ Output 5 0 ∷ Output 3 0 ∷ []) ∷ [])
        ∷ row 8 40 (exact InPort 1 ∷ any_group_dst ∷ exact VlanVid 0x1064 ∷ []) (Apply (Output 2 0 ∷ Output 4 0 ∷ PopVlan ∷ Output 3 0 ∷ []) ∷ [])
        ∷ row 8 40 (exact InPort 3 ∷ any_group_dst ∷ exact VlanVid 0x1064 ∷ []) (Apply (Output 2 0 ∷ Output 4 0 ∷ PopVlan ∷ Output 1 0 ∷ Output 5 0 ∷ Output 0xfffffff8 0 ∷ []) ∷ [])
        ∷ [] }
{}
