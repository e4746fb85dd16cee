//! Lines and their parts: each function is empty, and its contract is the law.

ghost use Rattle.std.specs.Prelude.{◌≡◌, ◌↔◌, ℕ, Bool, false, true, List, [], Ok};
ghost use Rattle.std.specs.Str.{is_utf8, IsUtf8};
ghost use Rattle.std.specs.Str.Lines.{lines};
ghost use Rattle.yaml_subset.specs.Characters.{next_part, line_end};
ghost use Rattle.law_texts.specs.Lines.{HasLines};
ghost use Rattle.law_texts.specs.Parts.{IsPart};

/// A text is found to be UTF-8 exactly where its bytes are those of some characters (RFC 3629).
pub fn a_text_is_utf8_where_characters_are_written_so()
    ensures { (text : List ℕ) → (is_utf8 text ≡ true) ↔ IsUtf8 text }
{}

/// A text is cut into lines exactly as line feeds end them.
pub fn line_feeds_end_lines()
    ensures { (text : List ℕ) (found : List (List ℕ)) → (lines text ≡ found) ↔ HasLines text found }
{}

/// The next part of a line is read exactly as the one that stands behind spaces, or as nothing where a comment or the line's
/// end comes.
pub fn the_next_part_stands_behind_spaces()
    ensures { (fresh : Bool) (rest part : List ℕ) → (next_part fresh rest ≡ Ok part) ↔ IsPart fresh rest part }
{}

/// A line is found to end exactly where nothing stands there but spaces and a comment.
pub fn a_line_ends_behind_spaces_and_a_comment()
    ensures { (rest : List ℕ) → (line_end rest ≡ Ok tt) ↔ IsPart false rest [] }
{}
