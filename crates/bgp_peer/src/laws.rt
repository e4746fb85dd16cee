//! Laws of the definitions: each function is empty, and its contract is the law. A story has what happened, the
//! latest first.

ghost use Rattle.std.specs.Prelude.{◌≡◌, ◌≢◌, ◌<◌, ◌≤◌, ◌^◌, ◌↔◌, ◌∷◌, ◌++◌, ℕ, List, [], length, Some, None};
ghost use Rattle.std.specs.List.{AllByRecursion};
ghost use Rattle.fg_outside.specs.declared.hub.EndCause.{EndCause};
ghost use Rattle.fg_outside.specs.declared.hub.Happening.{Happening};
ghost use Rattle.fg_outside.specs.declared.hub.Happening.TheVariants.{Opened, Heard, Closed, Moment as Shown};
ghost use Rattle.bgp_messages.specs.declared.fault.Fault.TheVariants.{HoldTimerExpired, Cease};
ghost use Rattle.bgp_messages.specs.declared.head.Front.TheVariants.{NotYet};
ghost use Rattle.bgp_messages.specs.declared.message.Message.{Message};
ghost use Rattle.bgp_messages.specs.declared.message.Message.TheVariants.{Update as Updating};
ghost use Rattle.bgp_messages.specs.declared.message.Update.{Update};
ghost use Rattle.bgp_messages.specs.Heads.{front_of};
ghost use Rattle.bgp_messages.specs.Messages.{Spells};
ghost use Rattle.bgp_messages.specs.declared.said.Said.TheVariants.{KeepAlive, Notification};
ghost use Rattle.bgp_session.specs.declared.session.State.TheVariants.{Idle, OpenSent, Established};
ghost use Rattle.bgp_routes.specs.Updates.{after};
ghost use Rattle.bgp_routes.specs.Sets.{AreAscending, LeadToNetworks};
ghost use Rattle.bgp_peer.specs.declared.known.Known.{Known};
ghost use Rattle.bgp_peer.specs.declared.peer.Peering.{Peering};
ghost use Rattle.bgp_peer.specs.declared.saying.BgpSaying.TheVariants.{Close};
ghost use Rattle.bgp_peer.specs.Sayings.{sends, refusal};
ghost use Rattle.bgp_peer.specs.Turns.{known, anew, turn, said};
ghost use Rattle.bgp_peer.specs.Stories.{Story, behind, peer_behind, said_at, IsDue, IsLate, IsRead, GoesOn, hears_whole};

/// Whatever happened, there are routes only while a session is established; none is left where its connection
/// is gone.
pub fn routes_are_of_an_established_session()
    ensures established { (peering : Peering) (story : Story) → ((peer_behind peering story).session.state ≡ Established → ⊥) → (peer_behind peering story).routes ≡ [] }
    ensures closed { (peering : Peering) (story : Story) → (peer_behind peering story).conn ≡ None → (peer_behind peering story).routes ≡ [] }
{}

/// Whatever happens, a connection goes on, or is gone with the routes, and that it closed is said last.
pub fn a_connection_goes_on_or_its_end_is_told()
    ensures { (k : Known) (h : Happening) (conn : ℕ) → k.peer.conn ≡ Some conn → GoesOn conn (turn h k).peer }
{}

/// Whatever happened, there are at most 1,024 routes, by address and length, and no network has a host bit.
pub fn routes_are_few_and_in_order()
    ensures few { (peering : Peering) (story : Story) → length (peer_behind peering story).routes ≤ 1024 }
    ensures order { (peering : Peering) (story : Story) → AreAscending (peer_behind peering story).routes }
    ensures networks { (peering : Peering) (story : Story) → LeadToNetworks (peer_behind peering story).routes }
{}

/// Whatever happened, there is a connection exactly where the session isn't idle.
pub fn a_session_has_its_connection()
    ensures { (peering : Peering) (story : Story) → ((peer_behind peering story).conn ≡ None) ↔ ((peer_behind peering story).session.state ≡ Idle) }
{}

/// Whatever happened, a moment says a KEEPALIVE on an open connection exactly where one is due: timers run, a
/// third of the hold time went by since the last message that was said on it, and the hold time isn't over.
pub fn a_keepalive_is_said_in_time()
    ensures { (peering : Peering) (story : Story) (conn moment : ℕ) → (peer_behind peering story).conn ≡ Some conn
        → (said_at peering story (Shown moment) ≡ sends conn KeepAlive ∷ []) ↔ IsDue peering conn story moment }
{}

/// Whatever happened, a moment ends the session by its hold timer exactly where timers run and the hold time went
/// by since the last message that was heard: a NOTIFICATION is said, and the connection is closed.
pub fn the_hold_timer_ends_a_session()
    ensures { (peering : Peering) (story : Story) (conn moment : ℕ) → (peer_behind peering story).conn ≡ Some conn
        → (said_at peering story (Shown moment) ≡ sends conn (Notification HoldTimerExpired) ∷ Close conn (refusal HoldTimerExpired) ∷ []) ↔ IsLate peering story moment }
{}

/// Whatever happened, each message that is said is one that a peer reads which expects our AS; an identifier
/// isn't 0.
pub fn what_is_said_is_read()
    ensures { (peering : Peering) → peering.our_as < 2 ^ 16 → peering.id.0 < 2 ^ 32 → peering.id.0 ≢ 0 → (story : Story) (h : Happening)
        → AllByRecursion (IsRead peering.our_as) (said_at peering story h) }
{}

/// Whatever happened, no timer runs before the peer's OPEN: a moment says nothing then.
pub fn no_timer_runs_before_an_open()
    ensures { (peering : Peering) (story : Story) (moment : ℕ) → (peer_behind peering story).session.state ≡ OpenSent → said_at peering story (Shown moment) ≡ [] }
{}

/// A connection beside that of the session is told a NOTIFICATION of `Cease` and closed, and nothing else is said
/// or changed; what comes on it, and its end, are passed over.
pub fn a_further_connection_is_turned_away()
    ensures told { (k : Known) (conn other : ℕ) → k.peer.conn ≡ Some conn → (conn ≡ other → ⊥)
        → said (turn (Opened other) k) ≡ sends other (Notification Cease) ∷ Close other (refusal Cease) ∷ [] }
    ensures kept { (k : Known) (conn other : ℕ) → k.peer.conn ≡ Some conn → (conn ≡ other → ⊥) → anew (turn (Opened other) k) ≡ anew k }
    ensures heard { (k : Known) (conn other : ℕ) (piece : List ℕ) → k.peer.conn ≡ Some conn → (conn ≡ other → ⊥) → turn (Heard other piece) k ≡ anew k }
    ensures closed { (k : Known) (conn other : ℕ) (cause : EndCause) → k.peer.conn ≡ Some conn → (conn ≡ other → ⊥) → turn (Closed other cause) k ≡ anew k }
{}

/// How bytes are cut into pieces changes nothing: two pieces one behind the other lead to the same peer as one does,
/// and what is said of the one is what is said of the two.
pub fn how_bytes_are_cut_changes_nothing()
    ensures peer { (k : Known) (conn : ℕ) (a b : List ℕ) → (anew (turn (Heard conn b) (turn (Heard conn a) k))).peer ≡ (anew (turn (Heard conn (a ++ b)) k)).peer }
    ensures says { (k : Known) (conn : ℕ) (a b : List ℕ)
        → said (turn (Heard conn (a ++ b)) k) ≡ said (turn (Heard conn a) k) ++ said (turn (Heard conn b) (turn (Heard conn a) k)) }
{}

/// Whatever happened, what is left unread of an open connection is less than a message: at its front stands neither
/// one nor a fault, and it has fewer than 4,096 bytes.
pub fn less_than_a_message_is_left_unread()
    ensures waits { (peering : Peering) (story : Story) (conn : ℕ) → (behind peering story).peer.conn ≡ Some conn → front_of (behind peering story).unread ≡ NotYet }
    ensures few { (peering : Peering) (story : Story) (conn : ℕ) → (behind peering story).peer.conn ≡ Some conn → length (behind peering story).unread < 4096 }
{}

/// A message that comes whole, where no bytes are left of others, is heard by the session's state: what it leads to is
/// all that its bytes do.
pub fn a_whole_message_is_heard()
    ensures { (k : Known) (conn : ℕ) (message : Message) (bytes : List ℕ) → k.peer.conn ≡ Some conn → k.unread ≡ [] → Spells k.peer.peering.peer_as message bytes
        → turn (Heard conn bytes) k ≡ known (hears_whole conn message (anew k).peer) [] }
{}

/// An UPDATE that comes whole in an established session leads to the routes behind it, where these are no more than
/// 1,024, and nothing is said.
pub fn an_update_leads_to_its_routes()
    ensures routes { (k : Known) (conn : ℕ) (u : Update) (bytes : List ℕ) → k.peer.conn ≡ Some conn → k.unread ≡ [] → k.peer.session.state ≡ Established
        → Spells k.peer.peering.peer_as (Updating u) bytes → length (after k.peer.peering.our_as k.peer.routes u) ≤ 1024
        → (turn (Heard conn bytes) k).peer.routes ≡ after k.peer.peering.our_as k.peer.routes u }
    ensures silent { (k : Known) (conn : ℕ) (u : Update) (bytes : List ℕ) → k.peer.conn ≡ Some conn → k.unread ≡ [] → k.peer.session.state ≡ Established
        → Spells k.peer.peering.peer_as (Updating u) bytes → length (after k.peer.peering.our_as k.peer.routes u) ≤ 1024
        → said (turn (Heard conn bytes) k) ≡ [] }
{}
