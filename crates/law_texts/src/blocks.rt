//! The tests of open blocks and of lines by which a line's fault is told: each function is empty, and its contract is the law.

ghost use Rattle.std.specs.Prelude.{◌≡◌, ◌↔◌, ◌+◌, ◌≤◌, ℕ, Bool, true, List, length, Option};
ghost use Rattle.yaml_tree.specs.declared.tree.Tree.{Tree};
ghost use Rattle.yaml_subset.specs.declared.blocks.State.{State};
ghost use Rattle.yaml_subset.specs.declared.blocks.State.TheVariants.{Start};
ghost use Rattle.yaml_subset.specs.declared.stack.Frame.{Frame};
ghost use Rattle.yaml_subset.specs.Blocks.{begins_block, ends_block, is_marker, is_start, levels_in, top_is};
ghost use Rattle.law_texts.specs.Blocks.{IsBegunAt, IsEndedAt, IsInnermost, IsMarker};

/// A line is found to be a marker exactly where three of the character begin it and a space or its end follows; and nothing
/// is found to count before it exactly at the start.
pub fn a_marker_begins_a_line()
    ensures marker { (c : ℕ) (line : List ℕ) → (is_marker c line ≡ true) ↔ IsMarker c line }
    ensures start { (state : State) → (is_start state ≡ true) ↔ (state ≡ Start) }
{}

/// By its indent a line is found to be of the innermost block, to end a block and to begin one exactly where it does; and of
/// 32 levels those are left that no open block takes.
pub fn lines_begin_and_end_blocks_by_their_indents()
    ensures innermost { (indent : ℕ) (frames : List Frame) → (top_is indent frames ≡ true) ↔ IsInnermost indent frames }
    ensures ended { (indent : ℕ) (item : Bool) (f : Frame) (around : List Frame) → (ends_block indent item f around ≡ true) ↔ IsEndedAt indent item f around }
    ensures begun { (frames : List Frame) (slot : Option Tree) (indent : ℕ) (item : Bool) → (begins_block frames slot indent item ≡ true) ↔ IsBegunAt frames slot indent item }
    ensures levels { (frames : List Frame) → length frames ≤ 32 → levels_in frames + length frames ≡ 32 }
{}
