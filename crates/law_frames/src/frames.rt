//! The law: the function is empty, and its contract is the law.

ghost use Rattle.std.specs.Prelude.{◌≡◌, ◌≢◌, ◌↔◌, ◌<◌, ℕ, List, slice_index, Result, Ok, Err};
ghost use Rattle.of13_codec.specs.declared.message.Message.{Message};
ghost use Rattle.of13_codec.specs.declared.refused.WireRefused.{WireRefused};
ghost use Rattle.of13_codec.specs.declared.refused.WireRefused.TheVariants.{Memory};
ghost use Rattle.of13_codec.specs.Decoding.{decoded};
ghost use Rattle.of13_codec.specs.Faults.{TellsFrame};
ghost use Rattle.of13_codec.specs.Spelling.{Spells};

/// A frame is decoded to a message, with its transaction id, exactly where it spells it, and is refused exactly with what is first
/// wrong with it.
pub fn a_frame_is_decoded_as_it_is_spelled()
    ensures message { (frame : List ℕ) → ((i : ℕ) → slice_index frame i < 256) → (m : Message) (xid : ℕ) → (decoded frame ≡ Ok (m, xid)) ↔ Spells m xid frame }
    ensures refusal { (frame : List ℕ) → ((i : ℕ) → slice_index frame i < 256) → (why : WireRefused)
        → (decoded frame ≡ Err why) ↔ ((why ≢ Memory) × TellsFrame {X = Message × ℕ} frame (Err why)) }
{}
