//! Laws of the definitions alone, which say nothing of the code.

ghost use Rattle.std.specs.Prelude.{◌≡◌, ℕ, Bool, List, [], ◌∷◌, ◌++◌, ◌<◌, ◌≤◌, true, false, Ok};
ghost use Rattle.yaml_subset.specs.Numbers.{magnitude};
ghost use Rattle.yaml_subset.specs.DigitLaws.{digits_value, IsMagnitude};
ghost use Rattle.yaml_tree.specs.declared.tree.Tree.{Tree};
ghost use Rattle.yaml_subset.specs.ReadBack.{is_sound};
ghost use Rattle.yaml_subset.specs.Grammar.{Reads, ReadsWithin};
ghost use Rattle.yaml_subset.specs.declared.fault.YamlFault.{YamlFault};
ghost use Rattle.yaml_subset.specs.TextFault.{IsFault, HasTreeOrItsFault};
ghost use Rattle.yaml_subset.specs.Levels.{levels};
ghost use Rattle.yaml_subset.specs.Quoted.{single_from, double_from};
ghost use Rattle.yaml_subset.specs.SingleQuoted.{IsSingleQuoted};
ghost use Rattle.yaml_subset.specs.declared.quoted.Escape.TheVariants.{Outside};
ghost use Rattle.yaml_subset.specs.DoubleQuoted.{IsDoubleQuoted};
ghost use Rattle.yaml_subset.specs.Scalars.{plain_scalar};
ghost use Rattle.yaml_subset.specs.PlainText.{IsPlain};

/// A text has a tree up to the end of each line of a text that has one.
pub fn a_front_of_whole_lines_of_an_accepted_text_is_accepted()
    ensures { (front back : List ℕ) (t : Tree) → Reads (front ++ 10 ∷ back) t → (u : Tree) × Reads (front ++ 10 ∷ []) u }
{}

/// Digits stand for the number that their places give, and they are found too wide exactly where it
/// passes the greatest magnitude of an `i128`.
pub fn digits_are_wide_exactly_where_their_number_is()
    ensures { (digits : List ℕ) (base : ℕ) → 0 < base → IsMagnitude (magnitude base 0 digits) (digits_value base 0 digits) }
{}

/// A tree that a text has has maps whose keys differ, and nests at most 32 lists and maps.
pub fn a_tree_that_is_read_is_sound()
    ensures { (text : List ℕ) (t : Tree) → Reads text t → (is_sound t ≡ true) × (levels t ≤ 32) }
{}

/// A text has at most one tree by the grammar.
pub fn a_text_has_at_most_one_tree()
    ensures { (text : List ℕ) (t u : Tree) → Reads text t → Reads text u → t ≡ u }
{}

/// The levels of the grammar bound how many lists and maps a tree nests, and nothing else: a text's tree
/// within so many levels nests at most so many, and where it does it is the text's tree within them.
pub fn levels_bound_how_deep_a_tree_is()
    ensures deep { (n : ℕ) (text : List ℕ) (t : Tree) → ReadsWithin n text t → levels t ≤ n }
    ensures within { (m n : ℕ) (text : List ℕ) (t : Tree) → levels t ≤ n → ReadsWithin m text t → ReadsWithin n text t }
{}

/// A text has a tree by the grammar or a fault, and never both; it has one fault at most.
pub fn a_text_is_refused_with_its_first_fault()
    ensures one { (text : List ℕ) (f g : YamlFault) → IsFault text f → IsFault text g → f ≡ g }
    ensures either { (text : List ℕ) → HasTreeOrItsFault text }
{}

/// A text is read behind a single quote exactly where it stands there with its quotes doubled, up to a
/// quote behind which no other follows.
pub fn a_single_quoted_text_is_spelled_with_its_quotes_doubled()
    ensures found { (rest text after : List ℕ) → single_from false [] rest ≡ Ok (text, after) → IsSingleQuoted rest text after }
    ensures read { (rest text after : List ℕ) → IsSingleQuoted rest text after → single_from false [] rest ≡ Ok (text, after) }
{}

/// A text is read behind a double quote exactly where it stands there as its characters and escapes, up to
/// the first quote outside of them.
pub fn a_double_quoted_text_is_spelled_by_its_escapes()
    ensures found { (rest text after : List ℕ) → double_from Outside [] rest ≡ Ok (text, after) → IsDoubleQuoted rest text after }
    ensures read { (rest text after : List ℕ) → IsDoubleQuoted rest text after → double_from Outside [] rest ≡ Ok (text, after) }
{}

/// A plain scalar is read exactly as the text up to the first place where one ends, without the spaces
/// before it.
pub fn a_plain_text_ends_at_the_first_place_where_one_ends()
    ensures found { (flow : Bool) (rest text after : List ℕ) → plain_scalar flow rest ≡ Ok (record { plain = true; text = text }, after) → IsPlain flow rest text after }
    ensures read { (flow : Bool) (rest text after : List ℕ) → IsPlain flow rest text after → plain_scalar flow rest ≡ Ok (record { plain = true; text = text }, after) }
{}
