//! Laws of the definitions: each function is empty, and its contract is the law.

ghost use Rattle.std.specs.Prelude.{◌≡◌, ◌≢◌, ◌<◌, ◌^◌, ◌↔◌, ◌∷◌, ℕ, true, false, Some};
ghost use Rattle.net_base.specs.declared.numbers.Moment.{Moment};
ghost use Rattle.bgp_messages.specs.declared.fault.Fault.{Fault};
ghost use Rattle.bgp_messages.specs.declared.fault.Fault.TheVariants.{HoldTimerExpired, FiniteStateMachineError};
ghost use Rattle.bgp_messages.specs.declared.message.Message.{Message};
ghost use Rattle.bgp_messages.specs.declared.message.Message.TheVariants as messages;
ghost use Rattle.bgp_messages.specs.declared.message.Update.{Update};
ghost use Rattle.bgp_messages.specs.declared.said.Said.{Said};
ghost use Rattle.bgp_messages.specs.declared.said.Said.TheVariants.{KeepAlive};
ghost use Rattle.bgp_messages.specs.Messages.{kind_of_message, Spells};
ghost use Rattle.bgp_messages.specs.Said.{written, message_of};
ghost use Rattle.bgp_session.specs.declared.session.Session.{Session};
ghost use Rattle.bgp_session.specs.declared.session.State.TheVariants.{Idle, OpenSent, Established};
ghost use Rattle.bgp_session.specs.declared.step.Step.TheVariants.{Nothing, Say, Refuse};
ghost use Rattle.bgp_session.specs.Sessions.{Event, peer_opens, peer_says, said_of, is_open, is_awaited, stays, leads};
ghost use Rattle.bgp_session.specs.Stories.{Happened, Story, Runs, IsOver, IsQuiet, CameTo, came, session_of, step_at, at_moment};

/// Whatever happened, a KEEPALIVE is said at a moment exactly where timers run, a third of the hold time
/// went by since the last message that was said, and the hold time isn't over.
pub fn a_keepalive_is_said_in_time()
    ensures { (our_as id : ℕ) (story : Story) (now : Moment)
        → (step_at our_as id story (at_moment now) ≡ Say KeepAlive) ↔ (Runs our_as id story × (IsOver story now → ⊥) × IsQuiet our_as id story now) }
{}

/// Whatever happened, the hold timer ends a session at a moment exactly where timers run and the hold time
/// went by since the last message that came; before the peer's OPEN no moment does anything.
pub fn the_hold_timer_ends_a_session()
    ensures over { (our_as id : ℕ) (story : Story) (now : Moment)
        → (step_at our_as id story (at_moment now) ≡ Refuse HoldTimerExpired) ↔ (Runs our_as id story × IsOver story now) }
    ensures waits { (our_as id : ℕ) (story : Story) (now : Moment) → (session_of our_as id story).state ≡ OpenSent
        → step_at our_as id story (at_moment now) ≡ Nothing }
{}

/// Behind each moment the peer was heard within the hold time, and something was said within a third of it,
/// in each session whose timers run.
pub fn no_session_is_silent()
    ensures heard { (our_as id : ℕ) (story : Story) (now : Moment) → Runs our_as id (at_moment now ∷ story) → IsOver (at_moment now ∷ story) now → ⊥ }
    ensures said { (our_as id : ℕ) (story : Story) (now : Moment) → Runs our_as id (at_moment now ∷ story) → IsQuiet our_as id (at_moment now ∷ story) now → ⊥ }
{}

/// Whatever happened, a session has its state by what came since our OPEN: nothing; the peer's OPEN; or that
/// OPEN, a KEEPALIVE, and then UPDATEs and KEEPALIVEs alone.
pub fn a_session_is_as_far_as_what_came()
    ensures { (our_as id : ℕ) (story : Story) → CameTo (session_of our_as id story).state (came our_as id story) }
{}

/// Whatever happened, what a session says is a message that a peer reads, one that expects our AS; an
/// identifier isn't 0.
pub fn what_a_session_says_is_read()
    ensures { (our_as id : ℕ) → our_as < 2 ^ 16 → id < 2 ^ 32 → id ≢ 0 → (story : Story) (h : Happened) (said : Said)
        → said_of (step_at our_as id story h) ≡ Some said → Spells our_as (message_of said) (written said) }
{}

/// A session that closes says its NOTIFICATION once: at the step at which it is over; and then nothing
/// happens until the peer connects again.
pub fn a_notification_is_the_last_word()
    ensures over { (s : Session) (now : Moment) (event : Event) (fault : Fault) → (leads s now event).1 ≡ Refuse fault → (leads s now event).0.state ≡ Idle }
    ensures silent { (s : Session) (now : Moment) (event : Event) → s.state ≡ Idle → (event ≡ peer_opens → ⊥) → leads s now event ≡ stays s }
{}

/// While a session is open, another connection changes nothing of it.
pub fn another_connection_changes_nothing()
    ensures { (s : Session) (now : Moment) → is_open s.state ≡ true → leads s now peer_opens ≡ stays s }
{}

/// In an open session an UPDATE is taken exactly where the session is established.
pub fn updates_are_taken_once_established()
    ensures { (s : Session) (now : Moment) (u : Update) → is_open s.state ≡ true
        → ((leads s now (peer_says (messages.Update u))).1 ≡ Nothing) ↔ (s.state ≡ Established) }
{}

/// In an open session a message is refused by its state exactly where its type isn't awaited.
pub fn what_is_not_awaited_is_refused()
    ensures { (s : Session) (now : Moment) (message : Message) → is_open s.state ≡ true
        → ((leads s now (peer_says message)).1 ≡ Refuse FiniteStateMachineError) ↔ (is_awaited s.state (kind_of_message message) ≡ false) }
{}
