//! Frames that are worked out by hand from the standard's structures, against the definitions alone. The functions do
//! nothing: their contracts say which bytes there are.

ghost use Rattle.std.specs.Prelude.{◌≡◌, ◌++◌, ◌∷◌, [], codes};
ghost use Rattle.of13_codec.specs.declared.message.Message.TheVariants.{EchoRequest, EchoReply, FeaturesRequest, PortDescRequest, PortStatsRequest, BarrierRequest, BarrierReply};
ghost use Rattle.of13_codec.specs.Messages.{written};
ghost use Rattle.law_frames.specs.Worked.{hex, hello, error, features, packet_in, packet_out, flow_mod, port_status, port_desc_reply, port_stats_reply};

/// Messages of connections (OpenFlow 1.3, 7.1, 7.3.1, 7.3.8, 7.4.4 and 7.5): version, type, length and transaction
/// id, and what stands behind them.
pub fn frames_of_connections()
    ensures hello { written hello 1 ≡ hex (codes "04000010 00000001 0001 0008 00000010") }
    ensures error { written error 2 ≡ hex (codes "0401000e 00000002 0102 0304 0506") }
    ensures echo_request { written (EchoRequest (0xab ∷ [])) 3 ≡ hex (codes "04020009 00000003 ab") }
    ensures echo_reply { written (EchoReply (0xab ∷ [])) 4 ≡ hex (codes "04030009 00000004 ab") }
    ensures features_request { written FeaturesRequest 5 ≡ hex (codes "04050008 00000005") }
    ensures features { written features 6 ≡ hex (codes "04060020 00000006 0102030405060708 090a0b0c 0d 0e 0000 11121314 00000000") }
    ensures barrier_request { written BarrierRequest 7 ≡ hex (codes "04140008 00000007") }
    ensures barrier_reply { written BarrierReply 8 ≡ hex (codes "04150008 00000008") }
{}

/// Packets (OpenFlow 1.3, 7.4.1 and 7.3.7).
pub fn frames_of_packets()
    ensures packet_in { written packet_in 9 ≡ hex (codes "040a002c 00000009 01020304 0506 07 08 090a0b0c0d0e0f10 0001 000c 80000004 11121314 00000000 0000 1516") }
    ensures packet_out { written packet_out 10 ≡ hex (codes "040d0029 0000000a ffffffff fffffffd 0010 000000000000 0000 0010 00000005 0607 000000000000 aa") }
{}

/// A change of a flow table, with a masked field, five actions and two instructions (OpenFlow 1.3, 7.3.4.1, 7.2.3 to 7.2.5).
pub fn frame_of_a_change()
    ensures { written flow_mod 11 ≡ hex (codes "040e0090 0000000b 0102030405060708 1112131415161718 21 22 2324 2526 2728 292a2b2c 2d2e2f30 31323334 3536 0000")
        ++ hex (codes "0001 0014 8000 07 0c 010000000000 010000000000 00000000")
        ++ hex (codes "0004 0040 00000000 0011 0008 8100 0000 0019 0010 8000 0c 02 1064 000000000000 0000 0010 00000003 0000 000000000000")
        ++ hex (codes "0012 0008 00000000 0018 0008 00000000 0001 0008 07 000000") }
{}

/// Ports and their counters (OpenFlow 1.3, 7.2.1, 7.4.3, 7.3.5, 7.3.5.6 and 7.3.5.7).
pub fn frames_of_ports()
    ensures status { written port_status 12 ≡ hex (codes "040c0050 0000000c 02 00000000000000 01020304 00000000 020000000001 0000 41414141414141414141414141414141 05060708 090a0b0c")
        ++ hex (codes "424242424242424242424242424242424242424242424242") }
    ensures desc_request { written PortDescRequest 13 ≡ hex (codes "04120010 0000000d 000d 0000 00000000") }
    ensures desc_reply { written port_desc_reply 14 ≡ hex (codes "04130050 0000000e 000d 0000 00000000 01020304 00000000 020000000001 0000 41414141414141414141414141414141 05060708 090a0b0c")
        ++ hex (codes "424242424242424242424242424242424242424242424242") }
    ensures stats_request { written (PortStatsRequest 0xffffffff) 15 ≡ hex (codes "04120018 0000000f 0004 0000 00000000 ffffffff 00000000") }
    ensures stats_reply { written port_stats_reply 16 ≡ hex (codes "04130080 00000010 0004 0001 00000000 00000021 00000000")
        ++ hex (codes "0000000000000001 0000000000000002 0000000000000003 0000000000000004 0000000000000005 0000000000000006")
        ++ hex (codes "0000000000000007 0000000000000008 0000000000000009 000000000000000a 000000000000000b 000000000000000c 00000022 00000023") }
{}
