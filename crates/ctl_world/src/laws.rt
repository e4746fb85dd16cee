//! What holds of the definitions. The functions do nothing: their contracts are the laws.

ghost use Rattle.std.specs.Prelude.{◌≡◌, ℕ, List, None, Bool, filter};
ghost use Rattle.net_base.specs.declared.numbers.Moment.{Moment};
ghost use Rattle.conf_types.specs.declared.state.HostRec.{HostRec};
ghost use Rattle.conf_types.specs.Configuration.{Configuration};
ghost use Rattle.conf_types.specs.Valid.{IsValid};
ghost use Rattle.host_learn.specs.Kept.{kept as kept_hosts};
ghost use Rattle.neighbour_resolve.specs.Kept.{kept as kept_neighbours};
ghost use Rattle.of13_codec.specs.declared.message.Message.{Message};
ghost use Rattle.switch_session.specs.declared.closing.Closing.{Closing};
ghost use Rattle.ctl_world.specs.declared.conns.Conn.{Conn};
ghost use Rattle.ctl_world.specs.declared.said.Said.{Said};
ghost use Rattle.ctl_world.specs.Alike.{IsAlike, face};
ghost use Rattle.ctl_world.specs.Connections.{change, put};
ghost use Rattle.ctl_world.specs.Ends.{close, ended, forget_lost};
ghost use Rattle.ctl_world.specs.Saying.{add_said, ask, repeat, say};
ghost use Rattle.ctl_world.specs.World.{IsSound, World, first, now, running, running_of, ups, ups_of};

/// What is known before anything happened is sound: nothing was learned.
pub fn what_is_known_first_is_sound()
    ensures { (conf : Configuration) → IsValid conf → IsSound (first conf) }
{}

/// What is said, on a connection or as a line, leaves a sound world sound.
pub fn what_is_said_leaves_it_sound()
    ensures say { (number : ℕ) (m : Message) (w : World) → IsSound w → IsSound (say number m w) }
    ensures ask { (number : ℕ) (m : Message) (w : World) → IsSound w → IsSound (ask number m w) }
    ensures repeat { (number : ℕ) (m : Message) (xid : ℕ) (w : World) → IsSound w → IsSound (repeat number m xid w) }
    ensures added { (more : List Said) (w : World) → IsSound w → IsSound (add_said more w) }
{}

/// A sound world stays sound where a connection changes but keeps its datapath, its stage and its ports;
/// where one opens that has no datapath yet; and at another moment.
pub fn such_changes_leave_it_sound()
    ensures change { (number : ℕ) (w : World) (f : Conn → Conn) → ((c : Conn) → (f c).dp ≡ c.dp) → ((c : Conn) → (f c).session.state.stage ≡ c.session.state.stage)
        → ((c : Conn) → (f c).session.state.ports ≡ c.session.state.ports) → IsSound w → IsSound (record w { conns = change number f w.conns }) }
    ensures put { (c : Conn) (w : World) → c.dp ≡ None → IsSound w → IsSound (record w { conns = put c w.conns }) }
    ensures moment { (moment : Moment) (w : World) → IsSound w → IsSound (record w { moment = moment }) }
{}

/// A sound world of a valid configuration is sound with any connections, once what is lost by them is
/// forgotten. So it stays sound where a connection is closed or ends.
pub fn forgetting_what_is_lost_makes_it_sound()
    ensures forget { (w : World) (conns : List Conn) → IsValid w.conf → IsSound w → IsSound (forget_lost (record w { conns = conns })) }
    ensures close { (cause : Closing) (number : ℕ) (w : World) → IsValid w.conf → IsSound w → IsSound (close cause number w) }
    ensures ended { (cause : Closing) (number : ℕ) (w : World) → IsValid w.conf → IsSound w → IsSound (ended cause number w) }
{}

/// A sound world is sound with a part of its hosts.
pub fn a_part_of_the_hosts_is_sound()
    ensures { (test : HostRec → Bool) (w : World) → IsSound w → IsSound (record w { hosts = record w.hosts { hosts = filter test w.hosts.hosts } }) }
{}

/// A sound world is sound under a new configuration that is valid, with what is kept of the hosts and the
/// neighbours under it.
pub fn a_state_of_a_new_configuration()
    ensures kept { (next : Configuration) (w : World) → IsValid next → IsSound w → IsSound (record w {
      conf = next;
      hosts = kept_hosts next (ups_of next w.conns) w.moment.0 w.hosts;
      neighbours = kept_neighbours next (running_of next w.conns) w.neighbours;
    }) }
{}

/// Worlds that look the same to a settling have the same datapaths run, the same interfaces up and the
/// same state, and are sound together.
pub fn alike_worlds_run_alike()
    ensures same { (w : World) → IsAlike w w }
    ensures turned { (v w : World) → IsAlike v w → IsAlike w v }
    ensures through { (u v w : World) → IsAlike u v → IsAlike v w → IsAlike u w }
    ensures running { (v w : World) → IsAlike v w → running v ≡ running w }
    ensures ups { (v w : World) → IsAlike v w → ups v ≡ ups w }
    ensures now { (v w : World) → IsAlike v w → now v ≡ now w }
    ensures sound { (v w : World) → IsAlike v w → IsSound w → IsSound v }
{}

/// A world looks the same to a settling where a connection changes but keeps its face, and behind what
/// is said, on a connection or as a line, unless a reply to it is awaited.
pub fn what_is_said_is_alike()
    ensures change { (number : ℕ) (w : World) (f : Conn → Conn) → ((c : Conn) → face (f c) ≡ face c) → IsAlike (record w { conns = change number f w.conns }) w }
    ensures say { (number : ℕ) (m : Message) (w : World) → IsAlike (say number m w) w }
    ensures repeat { (number : ℕ) (m : Message) (xid : ℕ) (w : World) → IsAlike (repeat number m xid w) w }
    ensures added { (more : List Said) (w : World) → IsAlike (add_said more w) w }
{}

/// In a sound world there is nothing to forget.
pub fn a_sound_world_has_lost_nothing()
    ensures { (w : World) → IsSound w → forget_lost w ≡ w }
{}
