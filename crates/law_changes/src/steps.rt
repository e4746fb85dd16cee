//! The laws of the steps that turns are made of. A function's contract is the law, and its body does nothing.

ghost use Rattle.std.specs.Prelude.{ℕ, [], ◌∷◌, Option};
ghost use Rattle.net_base.specs.declared.address.Mac.{Mac};
ghost use Rattle.net_base.specs.declared.numbers.DpId.{DpId};
ghost use Rattle.conf_types.specs.declared.change.Change.TheVariants.{Host};
ghost use Rattle.conf_types.specs.Valid.{IsValid};
ghost use Rattle.conf_types.specs.Groups.{group_of};
ghost use Rattle.of13_codec.specs.declared.message.Message.{Message};
ghost use Rattle.ctl_world.specs.World.{World};
ghost use Rattle.ctl_packets.specs.Packets.{learn};
ghost use Rattle.ctl_core.specs.Settlings.{ask_all, settle};
ghost use Rattle.ctl_core.specs.Hearing.{hear_frame};
ghost use Rattle.ctl_core.specs.Turns.{pass};
ghost use Rattle.law_names.specs.Names.{Names};
ghost use Rattle.law_changes.specs.Clock.{by_clock};
ghost use Rattle.law_changes.specs.Frames.{by_frame};
ghost use Rattle.law_changes.specs.Settlings.{by_settling};

/// A frame names what its message changes, and a host that is heard is named by its key alone.
pub fn frames_are_named()
    ensures frame { (said : Option (Message × ℕ)) (number : ℕ) (w : World) → IsValid w.conf → Names w (hear_frame said number w) (by_frame said number w) }
    ensures host { (dp : DpId) (port vid : ℕ) (mac : Mac) (w : World) → Names w (learn dp port vid mac w) (Host (group_of w.conf dp) vid mac ∷ []) }
{}

/// The clock names the hosts that turn stale and those whose time is over, with the connections that fell silent.
pub fn the_clock_is_named()
    ensures { (moment : ℕ) (w : World) → IsValid w.conf → Names w (pass moment w) (by_clock moment w) }
{}

/// A settling names the neighbours that it asks or gives up; its batches change nothing.
pub fn settlings_are_named()
    ensures asks { (w : World) → Names w (ask_all w) (by_settling w) }
    ensures settled { (w : World) → Names w (settle w) (by_settling w) }
{}
