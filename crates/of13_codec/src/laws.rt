//! Laws of the definitions: each function is empty, and its contract is the law.

ghost use Rattle.std.specs.Prelude.{◌≡◌, ◌<◌, ◌≤◌, ◌+◌, ◌++◌, ◌^◌, ℕ, List, [], length, drop, slice_index};
ghost use Rattle.of_wire.specs.declared.fault.PartFault.{PartFault};
ghost use Rattle.of_wire.specs.Numbers.{number_in};
ghost use Rattle.of_wire.specs.Faults.{IsFirst, SpelledOrFaulty};
ghost use Rattle.of13_codec.specs.Faults.{IsVersionOf, FaultInBody};
ghost use Rattle.of13_codec.specs.declared.message.Message.{Message};
ghost use Rattle.of13_codec.specs.Messages.{written};
ghost use Rattle.of13_codec.specs.Spelling.{Spells};
ghost use Rattle.of13_codec.specs.WellFormed.{IsWellFormed, FitsFrame};

/// What is written of a well-formed message that fits spells it and no other, so that it is decoded
/// again.
pub fn written_message_is_spelled()
    ensures spelled { (m : Message) (xid : ℕ) → IsWellFormed m → FitsFrame m → xid < 2 ^ 32 → Spells m xid (written m xid) }
    ensures alone { (m n : Message) (xid id : ℕ) → IsWellFormed m → FitsFrame m → xid < 2 ^ 32 → Spells n id (written m xid) → (n ≡ m) × (id ≡ xid) }
{}

/// Bytes spell one message, with one transaction id.
pub fn bytes_spell_one_message()
    ensures { (m n : Message) (x y : ℕ) (bytes : List ℕ) → Spells m x bytes → Spells n y bytes → (m ≡ n) × (x ≡ y) }
{}

/// No spelling of a message is the front of another.
pub fn no_spelling_begins_another()
    ensures { (m n : Message) (x y : ℕ) (bytes rest : List ℕ) → Spells m x bytes → Spells n y (bytes ++ rest) → rest ≡ [] }
{}

/// A frame with a right header spells a message, and then nothing is wrong with its body, or a
/// fault is the first that stands in it, and one alone.
pub fn frames_are_spelled_or_have_a_first_fault()
    ensures either { (frame : List ℕ) → ((i : ℕ) → slice_index frame i < 256) → 8 ≤ length frame → IsVersionOf (number_in 1 1 frame) (number_in 0 1 frame) → number_in 2 2 frame ≡ length frame
        → SpelledOrFaulty ((m : Message) × (xid : ℕ) × Spells m xid frame) (FaultInBody (number_in 1 1 frame) (drop 8 frame)) }
    ensures one { (kind : ℕ) (body : List ℕ) (a b : PartFault) → IsFirst (FaultInBody kind body) a → IsFirst (FaultInBody kind body) b → a ≡ b }
{}
