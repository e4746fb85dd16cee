//! Laws of the definitions: each function is empty, and its contract is the law.

ghost use Rattle.std.specs.Prelude.{◌≡◌, ◌<◌, ◌↔◌, ℕ, List, None, Some, Ok, Err, slice_index};
ghost use Rattle.of_wire.specs.declared.fault.PartFault.{PartFault};
ghost use Rattle.of13_codec.specs.Messages.{written};
ghost use Rattle.of13_codec.specs.WellFormed.{IsWellFormed, FitsFrame};
ghost use Rattle.flow_stats.specs.declared.flow.FlowPart.{FlowPart};
ghost use Rattle.flow_stats.specs.Parts.{FaultInPart, IsOtherPart, SpellsPart};
ghost use Rattle.flow_stats.specs.Reading.{part_at};
ghost use Rattle.flow_stats.specs.Request.{flow_request, third_request};

/// A body spells one part at most, has one fault at most, and never both; a body of another multipart
/// type has neither.
pub fn a_body_has_one_answer()
    ensures one_part { (a b : FlowPart) (body : List ℕ) → SpellsPart a body → SpellsPart b body → a ≡ b }
    ensures never_both { (a : FlowPart) (body : List ℕ) (fault : PartFault) → SpellsPart a body → FaultInPart body fault → ⊥ }
    ensures one_fault { (body : List ℕ) (a b : PartFault) → FaultInPart body a → FaultInPart body b → a ≡ b }
    ensures no_part { (a : FlowPart) (body : List ℕ) → IsOtherPart body → SpellsPart a body → ⊥ }
    ensures no_fault { (body : List ℕ) (fault : PartFault) → IsOtherPart body → FaultInPart body fault → ⊥ }
{}

/// How reading goes, as a function, is what bytes spell: it gives a part exactly where the body spells that,
/// nothing exactly where the body is no such part, and a fault exactly where that is what is wrong with it.
pub fn a_body_is_read_as_it_is_spelled()
    ensures part { (body : List ℕ) (part : FlowPart) → ((i : ℕ) → slice_index body i < 256) → (part_at body ≡ Ok (Some part)) ↔ SpellsPart part body }
    ensures other { (body : List ℕ) → ((i : ℕ) → slice_index body i < 256) → (part_at body ≡ Ok None) ↔ IsOtherPart body }
    ensures fault { (body : List ℕ) (fault : PartFault) → ((i : ℕ) → slice_index body i < 256) → (part_at body ≡ Err fault) ↔ FaultInPart body fault }
{}

/// The request can be written, so that it spells its message; with the transaction id 3 it is this, byte by byte.
pub fn the_request_is_written()
    ensures well_formed { IsWellFormed flow_request }
    ensures fits { FitsFrame flow_request }
    ensures third { written flow_request 3 ≡ third_request }
{}
