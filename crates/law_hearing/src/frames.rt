//! Frames: the function is empty, and its contract is the law.

ghost use Rattle.std.specs.Prelude.{◌≡◌, ◌↔◌, ◌<◌, ℕ, List, slice_index, Some, None};
ghost use Rattle.of13_codec.specs.declared.message.Message.{Message};
ghost use Rattle.of13_codec.specs.Spelling.{Spells};
ghost use Rattle.ctl_life.specs.Life.{says};

use law_frames::frames::a_frame_is_decoded_as_it_is_spelled;

/// A frame says a message, with its transaction id, exactly where it spells it, and nothing exactly where it spells none.
pub fn a_frame_says_what_it_spells()
    ensures message { (frame : List ℕ) → ((i : ℕ) → slice_index frame i < 256) → (m : Message) (xid : ℕ) → (says frame ≡ Some (m, xid)) ↔ Spells m xid frame }
    ensures nothing { (frame : List ℕ) → ((i : ℕ) → slice_index frame i < 256) → (says frame ≡ None) ↔ ((m : Message) (xid : ℕ) → Spells m xid frame → ⊥) }
{
    a_frame_is_decoded_as_it_is_spelled();
}
