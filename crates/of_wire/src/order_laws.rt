//! A law of the definitions: the function is empty, and its contract is the law.

ghost use Rattle.std.specs.Prelude.{◌≡◌, List};
ghost use Rattle.std.specs.Ordering.{nat_cmp};
ghost use Rattle.std.specs.Cmp.Lexicographic.{slice_cmp};
ghost use Rattle.net_base.specs.declared.field.Field.{Field};
ghost use Rattle.of_match.specs.KeyOrder.{match_cmp};
ghost use Rattle.net_base.specs.WellFormed.{IsWellFormed};
ghost use Rattle.of_wire.specs.Parts.{match_bytes};

/// Well-formed matches stand in the order of the bytes that are written of them, compared byte by
/// byte (OpenFlow 1.3, 7.2.3).
pub fn matches_compare_as_their_bytes()
    ensures { (a b : List Field) → IsWellFormed a → IsWellFormed b → match_cmp a b ≡ slice_cmp nat_cmp (match_bytes a) (match_bytes b) }
{}
