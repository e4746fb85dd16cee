//! The laws of single steps. A function's contract is the law, and its body does nothing.

ghost use Rattle.std.specs.Prelude.{◌≡◌, ℕ, [], ◌∷◌, List};
ghost use Rattle.conf_types.specs.declared.address.Ip.{Ip};
ghost use Rattle.net_base.specs.declared.address.Mac.{Mac};
ghost use Rattle.net_base.specs.declared.numbers.DpId.{DpId};
ghost use Rattle.conf_types.specs.Groups.{group_of};
ghost use Rattle.conf_types.specs.Valid.{IsValid};
ghost use Rattle.of13_codec.specs.declared.message.Message.{Message};
ghost use Rattle.of13_codec.specs.declared.packet_in.PacketIn.{PacketIn};
ghost use Rattle.switch_session.specs.declared.closing.Closing.{Closing};
ghost use Rattle.ctl_world.specs.Connections.{change, with_heard};
ghost use Rattle.ctl_world.specs.Ends.{close, ended, forget_lost};
ghost use Rattle.ctl_world.specs.Saying.{ask, say};
ghost use Rattle.ctl_world.specs.World.{IsSound, World};
ghost use Rattle.ctl_life.specs.Life.{feed, open_conn, replace, take_dp};
ghost use Rattle.ctl_packets.specs.Packets.{learn, packet_in, want};
ghost use Rattle.conf_types.specs.declared.change.Change.TheVariants.{Host};
ghost use Rattle.law_names.specs.Ends.{by_end, by_replace, by_take, dps_on};
ghost use Rattle.law_names.specs.Names.{Names};
ghost use Rattle.law_names.specs.Packets.{by_packet_in};

/// What is said and what comes, a connection that opens, and a neighbour that is wanted change nothing that counts.
pub fn what_is_said_changes_nothing()
    ensures say { (number : ℕ) (m : Message) (w : World) → Names w (say number m w) [] }
    ensures ask { (number : ℕ) (m : Message) (w : World) → Names w (ask number m w) [] }
    ensures feed { (number : ℕ) (piece : List ℕ) (w : World) → Names w (feed number piece w) [] }
    ensures opened { (number : ℕ) (w : World) → Names w (open_conn number w) [] }
    ensures want { (group : DpId) (vid : ℕ) (ip : Ip) (w : World) → Names w (want group vid ip w) [] }
{}

/// A connection that ends, gives way or is a datapath's names the datapath with its ports, and what is forgotten.
pub fn ends_are_named()
    ensures closed { (cause : Closing) (number : ℕ) (w : World) → IsValid w.conf → Names w (close cause number w) (by_end number w) }
    ensures ended { (cause : Closing) (number : ℕ) (w : World) → IsValid w.conf → Names w (ended cause number w) (by_end number w) }
    ensures replaced { (dp : DpId) (w : World) → IsValid w.conf → Names w (replace dp w) (by_replace dp w) }
    ensures taken { (number : ℕ) (dp : DpId) (w : World) → IsValid w.conf → Names w (take_dp number dp w) (by_take number dp w) }
{}

/// A connection that is no datapath yet changes nothing that counts, whatever is heard on it and however it ends.
pub fn strangers_change_nothing()
    ensures closed { (cause : Closing) (number : ℕ) (w : World) → dps_on number w.conns ≡ [] → IsSound w → Names w (close cause number w) [] }
    ensures ended { (cause : Closing) (number : ℕ) (w : World) → dps_on number w.conns ≡ [] → IsSound w → Names w (ended cause number w) [] }
    ensures heard { (m : Message) (xid number : ℕ) (w : World) → dps_on number w.conns ≡ [] → IsSound w
        → Names w (forget_lost (record w { conns = change number (with_heard m xid) w.conns })) [] }
{}

/// A packet names the host or the neighbour that it tells of, and a host that is heard is named by its key alone.
pub fn packets_are_named()
    ensures packet { (m : PacketIn) (number : ℕ) (dp : DpId) (w : World) → Names w (packet_in m number dp w) (by_packet_in m dp w) }
    ensures host { (dp : DpId) (port vid : ℕ) (mac : Mac) (w : World) → Names w (learn dp port vid mac w) (Host (group_of w.conf dp) vid mac ∷ []) }
{}
