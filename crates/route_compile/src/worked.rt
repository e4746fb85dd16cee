//! Entries that are worked out by hand, against the definitions alone. The functions do nothing:
//! their contracts say which entries there are.

ghost use Rattle.std.specs.Prelude.{◌≡◌, [], ◌∷◌};
ghost use Rattle.of_match.specs.declared.action.TheConstants.{CONTROLLER};
ghost use Rattle.of_match.specs.declared.action.Action.TheVariants.{Output};
ghost use Rattle.of_match.specs.declared.action.Instr.TheVariants.{Goto, Apply};
ghost use Rattle.conf_types.specs.Families.{ipv4, ipv6};
ghost use Rattle.route_compile.specs.Routes.{fib_of};
ghost use Rattle.route_compile.specs.Worked.{LengthsFit, row, conf, switch, office, neighbours, for_office, to_prefix, for_office6, to_prefix6, to_station};

/// VLANs 100 and 200 with VIPs of both families and one router: for packets of VLAN 100 the VIPs, the
/// neighbours that are known, the networks where others are looked for, the way out for all else, and
/// the end of what no item holds. What VLAN 200 has of its link-local network isn't among them.
pub fn routes_between_two_vlans()
    ensures table_4 { (fit : LengthsFit) → fib_of ipv4 (conf fit) neighbours switch (office fit)
        ≡ row 4 42 (to_prefix 0x0a0001fe 0xffffffff) (Goto 6 ∷ [])
        ∷ row 4 42 (to_prefix 0x0a000101 0xffffffff) (to_station 0x0e0000000001 0x1064)
        ∷ row 4 34 (to_prefix 0x0a000100 0xffffff00) (Apply (Output CONTROLLER 0xffff ∷ []) ∷ [])
        ∷ row 4 10 (for_office []) (to_station 0x0e0000000001 0x1064)
        ∷ row 4 42 (to_prefix 0x0a0002fe 0xffffffff) (Goto 6 ∷ [])
        ∷ row 4 42 (to_prefix 0x0a000202 0xffffffff) (to_station 0x0e0000000002 0x10c8)
        ∷ row 4 34 (to_prefix 0x0a000200 0xffffff00) (Apply (Output CONTROLLER 0xffff ∷ []) ∷ [])
        ∷ row 4 9 (for_office []) []
        ∷ [] }
    ensures table_5 { (fit : LengthsFit) → fib_of ipv6 (conf fit) neighbours switch (office fit)
        ≡ row 5 138 (to_prefix6 0xfd0000010000000000000000000000fe 0xffffffffffffffffffffffffffffffff) (Goto 6 ∷ [])
        ∷ row 5 138 (to_prefix6 0xfd000001000000000000000000000001 0xffffffffffffffffffffffffffffffff) (to_station 0x0e0000000001 0x1064)
        ∷ row 5 74 (to_prefix6 0xfd000001000000000000000000000000 0xffffffffffffffff0000000000000000) (Apply (Output CONTROLLER 0xffff ∷ []) ∷ [])
        ∷ row 5 10 (for_office6 []) (to_station 0x0e0000000001 0x1064)
        ∷ row 5 9 (for_office6 []) []
        ∷ [] }
{}
