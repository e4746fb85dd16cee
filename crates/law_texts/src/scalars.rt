//! Scalars: each function is empty, and its contract is the law.

ghost use Rattle.std.specs.Prelude.{◌≡◌, ◌↔◌, ℕ, ℤ, Bool, List, Ok, Err};
ghost use Rattle.yaml_tree.specs.declared.tree.Key.{Key};
ghost use Rattle.yaml_tree.specs.declared.tree.Tree.{Tree};
ghost use Rattle.yaml_subset.specs.declared.fault.YamlCause.{YamlCause};
ghost use Rattle.yaml_subset.specs.declared.numbers.Number.TheVariants.{Not, Whole, Wide};
ghost use Rattle.yaml_subset.specs.declared.scalars.Scanned.{Scanned};
ghost use Rattle.yaml_subset.specs.Numbers.{number_of};
ghost use Rattle.yaml_subset.specs.Scalars.{scan, scalar_value, value_at, key_of};
ghost use Rattle.law_texts.specs.Numbers.{IsWhole, IsNumber};
ghost use Rattle.law_texts.specs.Scalars.{IsScanned, StandsFor, IsValueOf, IsKeyOf, IsWide, StandsForNone, IsNoValueOf, IsNoKeyOf};

/// A scalar is read exactly as it is written, in quotes or plain.
pub fn a_scalar_is_read_as_it_is_written()
    ensures { (flow : Bool) (rest : List ℕ) (s : Scanned) (after : List ℕ) → (scan flow rest ≡ Ok (s, after)) ↔ IsScanned flow rest s after }
{}

/// A whole number is read exactly as its digits stand for it by their places, and what is no whole number is found to be none.
pub fn digits_stand_for_whole_numbers()
    ensures whole { (text : List ℕ) (n : ℤ) → (number_of text ≡ Whole n) ↔ IsWhole text n }
    ensures none { (text : List ℕ) → (number_of text ≡ Not) ↔ (IsNumber text → ⊥) }
    ensures wide { (text : List ℕ) → (number_of text ≡ Wide) ↔ IsWide text }
{}

/// A scalar has exactly the value for which it stands.
pub fn a_scalar_has_the_value_for_which_it_stands()
    ensures alone { (s : Scanned) (v : Tree) → (scalar_value s ≡ Ok v) ↔ StandsFor s v }
    ensures there { (s : Scanned) (after : List ℕ) (v : Tree) → (value_at s after ≡ Ok v) ↔ IsValueOf s after v }
{}

/// A scalar is exactly the key for which it stands.
pub fn a_scalar_is_the_key_for_which_it_stands()
    ensures { (s : Scanned) (k : Key) → (key_of s ≡ Ok k) ↔ IsKeyOf s k }
{}

/// A scalar that stands for nothing, and one that is no key, is refused for exactly the cause of that.
pub fn a_scalar_that_stands_for_nothing_is_refused_for_its_cause()
    ensures alone { (s : Scanned) (cause : YamlCause) → (scalar_value s ≡ Err cause) ↔ StandsForNone s cause }
    ensures there { (s : Scanned) (after : List ℕ) (cause : YamlCause) → (value_at s after ≡ Err cause) ↔ IsNoValueOf s after cause }
    ensures as_key { (s : Scanned) (cause : YamlCause) → (key_of s ≡ Err cause) ↔ IsNoKeyOf s cause }
{}
