//! Laws of the definitions: each function is empty, and its contract is the law.

ghost use Rattle.std.specs.Prelude.{◌≡◌, ◌≤◌, ◌<◌, ◌+◌, ◌*◌, ◌++◌, ◌^◌, ℕ, Bool, List, [], length, slice_index};
ghost use Rattle.std.specs.List.{AllByRecursion, flat_map, list_any};
ghost use Rattle.net_base.specs.declared.field.Field.{Field};
ghost use Rattle.of_match.specs.declared.action.Action.{Action};
ghost use Rattle.of_match.specs.declared.action.Instr.{Instr};
ghost use Rattle.net_base.specs.WellFormed.{AreAscending};
ghost use Rattle.of_wire.specs.Parts.{number, field_bytes, match_bytes, action_bytes, instr_bytes};
ghost use Rattle.of_wire.specs.declared.fault.PartFault.{PartFault};
ghost use Rattle.of_wire.specs.Faults.{IsFirst, SpelledOrFaulty, FaultInActions, FaultInInstrs, FaultInMatch};
ghost use Rattle.of_wire.specs.Spelling.{known, SpellsAnyMatch, SpellsMatch, SpellsMatchSeen, SpellsActions, SpellsInstrs};
ghost use Rattle.of_match.specs.WellFormed.{IsAction, AreInstrs};
ghost use Rattle.of_wire.specs.WellFormed.{IsMatch, IsMatchSeen};

/// What is written of well-formed parts spells them; of instructions where it has fewer than 2^16
/// bytes, so that each length fits its 2 bytes.
pub fn written_parts_are_spelled()
    ensures to_a_switch { (fields : List Field) → IsMatch fields → SpellsMatch fields (match_bytes fields) }
    ensures by_a_switch { (fields : List Field) → IsMatchSeen fields → SpellsMatchSeen fields (match_bytes fields) }
    ensures actions { (actions : List Action) → AllByRecursion IsAction actions → SpellsActions actions (flat_map action_bytes actions) }
    ensures instrs { (instrs : List Instr) → AreInstrs instrs → length (flat_map instr_bytes instrs) < 2 ^ 16 → SpellsInstrs instrs (flat_map instr_bytes instrs) }
{}

/// No spelling of a match is the front of another, and one spelling spells one match.
pub fn no_match_begins_another()
    ensures { (strict : Bool) (a b : List Field) (spelling rest : List ℕ)
        → SpellsAnyMatch strict a spelling → SpellsAnyMatch strict b (spelling ++ rest) → (a ≡ b) × (rest ≡ []) }
{}

/// Bytes spell one list of actions, and one of instructions.
pub fn bytes_spell_one_list()
    ensures actions { (a b : List Action) (bytes : List ℕ) → SpellsActions a bytes → SpellsActions b bytes → a ≡ b }
    ensures instrs { (a b : List Instr) (bytes : List ℕ) → SpellsInstrs a bytes → SpellsInstrs b bytes → a ≡ b }
{}

/// A number takes the bytes that it is given; a field takes at most 36 bytes, an action at most 40,
/// and 24 where it is one that a switch accepts, since what it sets has no mask then.
pub fn parts_take_few_bytes()
    ensures number { (len value : ℕ) → length (number len value) ≡ len }
    ensures fields { (fields : List Field) → length (flat_map field_bytes fields) ≤ 36 * length fields }
    ensures in_a_match { (fields : List Field) → length (match_bytes fields) ≤ 11 + 36 * length fields }
    ensures actions { (actions : List Action) → length (flat_map action_bytes actions) ≤ 40 * length actions }
    ensures accepted { (actions : List Action) → AllByRecursion IsAction actions → length (flat_map action_bytes actions) ≤ 24 * length actions }
{}

/// The fields that a match spells ascend by number, and are the known ones among what stands in its
/// bytes, in whatever order.
pub fn spelled_fields_are_in_order()
    ensures ascending { (strict : Bool) (fields : List Field) (bytes : List ℕ) → SpellsAnyMatch strict fields bytes → AreAscending fields }
    ensures same { (strict : Bool) (fields : List Field) (bytes : List ℕ) (m : SpellsAnyMatch strict fields bytes) (test : Field → Bool)
        → list_any test fields ≡ list_any test (known m.items) }
{}

/// Bytes are spelled, and then no fault stands in them, or a fault is the first that does.
pub fn bytes_are_spelled_or_have_a_first_fault()
    ensures actions { (bytes : List ℕ) → ((i : ℕ) → slice_index bytes i < 256) → SpelledOrFaulty ((actions : List Action) × SpellsActions actions bytes) (FaultInActions bytes) }
    ensures instrs { (bytes : List ℕ) → ((i : ℕ) → slice_index bytes i < 256) → SpelledOrFaulty ((instrs : List Instr) × SpellsInstrs instrs bytes) (FaultInInstrs bytes) }
    ensures matches { (strict : Bool) (bytes : List ℕ) → ((i : ℕ) → slice_index bytes i < 256)
        → SpelledOrFaulty ((fields : List Field) × (spelling : List ℕ) × (rest : List ℕ) × SpellsAnyMatch strict fields spelling × (bytes ≡ spelling ++ rest)) (FaultInMatch strict bytes) }
{}

/// One fault alone is the first.
pub fn one_fault_is_the_first()
    ensures actions { (bytes : List ℕ) (a b : PartFault) → IsFirst (FaultInActions bytes) a → IsFirst (FaultInActions bytes) b → a ≡ b }
    ensures instrs { (bytes : List ℕ) (a b : PartFault) → IsFirst (FaultInInstrs bytes) a → IsFirst (FaultInInstrs bytes) b → a ≡ b }
    ensures matches { (strict : Bool) (bytes : List ℕ) (a b : PartFault) → IsFirst (FaultInMatch strict bytes) a → IsFirst (FaultInMatch strict bytes) b → a ≡ b }
{}
