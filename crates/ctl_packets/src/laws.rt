//! What holds of the definitions. The function does nothing: its contract is the law.

ghost use Rattle.std.specs.Prelude.{ℕ};
ghost use Rattle.net_base.specs.declared.numbers.DpId.{DpId};
ghost use Rattle.conf_types.specs.Valid.{IsValid};
ghost use Rattle.of13_codec.specs.declared.packet_in.PacketIn.{PacketIn};
ghost use Rattle.ctl_world.specs.World.{IsSound, World};
ghost use Rattle.ctl_packets.specs.Packets.{packet_in};

/// What a packet does leaves a sound world of a valid configuration sound.
pub fn a_packet_leaves_it_sound()
    ensures { (m : PacketIn) (number : ℕ) (dp : DpId) (w : World) → IsValid w.conf → IsSound w → IsSound (packet_in m number dp w) }
{}
