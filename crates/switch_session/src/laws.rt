//! Laws of the definitions: each function is empty, and its contract is the law.

ghost use Rattle.std.specs.Prelude.{◌≡◌, ◌⊎◌, ℕ, true, List, [], Some, None};
ghost use Rattle.std.specs.List.{concat};
ghost use Rattle.of13_codec.specs.declared.message.Message.{Message};
ghost use Rattle.switch_session.specs.declared.state.Stage.TheVariants.{Shut};
ghost use Rattle.switch_session.specs.Stages.{State, leads};
ghost use Rattle.switch_session.specs.Replies.{is_awaited_in, is_reply_in, stage_after};
ghost use Rattle.switch_session.specs.Told.{AreTold};
ghost use Rattle.switch_session.specs.Frames.{IsBegun, IsBad, HasNoFrame, Splits, Calls};

/// However a stream is cut into pieces, calls of `feed` and `next` in any order that end at `NotYet`
/// or `Bad` give the same frames. With what is unread then, they are the stream.
pub fn any_pieces_give_the_frames_of_the_stream()
    ensures split { (pieces frames : List (List ℕ)) (rest : List ℕ) → Calls [] pieces frames rest → HasNoFrame rest
        → Splits (concat pieces) frames rest }
    ensures one { (stream : List ℕ) (frames others : List (List ℕ)) (rest other : List ℕ)
        → Splits stream frames rest → Splits stream others other → (frames ≡ others) × (rest ≡ other) }
    ensures not_yet { (bytes : List ℕ) → IsBegun bytes → HasNoFrame bytes }
    ensures bad { (bytes : List ℕ) → IsBad bytes → HasNoFrame bytes }
{}

/// Whatever is heard, at most 4,096 ports are told, no two of one number.
pub fn ports_are_told_once()
    ensures { (s : State) (message : Message) (xid : ℕ) → AreTold s.ports → AreTold (leads s message xid).0.ports }
{}

/// A barrier, or the request for the ports, is awaited until a reply with its transaction id is heard, and no
/// longer; and no message makes anything awaited.
pub fn what_is_awaited_goes_with_its_reply()
    ensures stays { (s : State) (message : Message) (xid id : ℕ) → s.awaited ≡ Some id
        → ((leads s message xid).0.awaited ≡ Some id) ⊎ ((is_reply_in s.stage message ≡ true) × (xid ≡ id)) }
    ensures goes { (s : State) (message : Message) (id : ℕ) → s.awaited ≡ Some id → is_reply_in s.stage message ≡ true
        → (leads s message id).0.awaited ≡ None }
    ensures none { (s : State) (message : Message) (xid : ℕ) → s.awaited ≡ None → (leads s message xid).0.awaited ≡ None }
{}

/// Only what its stage awaits moves a connection on, and to the next stage alone; whatever else is heard leaves the
/// stage as it is, or closes the connection.
pub fn a_stage_moves_by_what_it_awaits()
    ensures { (s : State) (message : Message) (xid : ℕ) → ((leads s message xid).0.stage ≡ s.stage) ⊎ (((leads s message xid).0.stage ≡ Shut)
        ⊎ ((is_awaited_in s.stage s message xid ≡ true) × ((leads s message xid).0.stage ≡ stage_after s.stage))) }
{}
