//! Values of definitions at numbers of records that no recording reaches: each function is empty, and its contract
//! has the values.

ghost use Rattle.std.specs.Prelude.{◌≡◌, Some, [], ◌∷◌};
ghost use Rattle.recording.specs.HeaderLimit.{header_limit};
ghost use Rattle.recording.specs.Refused.{refusal};
ghost use Rattle.recording.specs.declared.refused.RecordCause.TheVariants.{Cut, Many};

/// The 17 bytes of a record's header are read, but of the record number 2^64 - 1 its first byte alone.
pub fn how_much_of_a_header_is_read()
    ensures first { header_limit 0 ≡ 17 }
    ensures before { header_limit 0xfffffffffffffffd ≡ 17 }
    ensures last { header_limit 0xfffffffffffffffe ≡ 1 }
{}

/// A record of one byte has the number 2^64 - 2 and is cut, or the next number, which is refused whatever it is of.
pub fn the_last_record()
    ensures before { refusal (record { count = 0xfffffffffffffffd; moment = 0; opened = [] }) (0 ∷ []) ≡ Some Cut }
    ensures last { refusal (record { count = 0xfffffffffffffffe; moment = 0; opened = [] }) (0 ∷ []) ≡ Some Many }
    ensures whole { refusal (record { count = 0xfffffffffffffffe; moment = 0; opened = [] })
        (0 ∷ 0 ∷ 0 ∷ 0 ∷ 0 ∷ 0 ∷ 0 ∷ 0 ∷ 5 ∷ 0 ∷ 0 ∷ 0 ∷ 0 ∷ 0 ∷ 0 ∷ 0 ∷ 0 ∷ []) ≡ Some Many }
{}
