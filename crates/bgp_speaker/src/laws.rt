//! Laws of the definitions: each function is empty, and its contract is the law.

ghost use Rattle.std.specs.Prelude.{◌≡◌, ◌≢◌, ℕ, List, Some, None};
ghost use Rattle.fg_outside.specs.declared.hub.Happening.{Happening};
ghost use Rattle.yaml_tree.specs.declared.tree.Key.{Key};
ghost use Rattle.bgp_texts.specs.Taking.{IsAccepted, text_of};
ghost use Rattle.bgp_speaker.specs.Speaking.{Speaking, turn};
ghost use Rattle.bgp_speaker.specs.Texts.{text_for};

/// A text that a turn gives gives a configuration, is the one with the routes that there are then, and isn't the last
/// one; from then on it is.
pub fn a_text_is_new()
    ensures accepted { (h : Happening) (s : Speaking) (text : List ℕ) → (turn h s).text ≡ Some text → IsAccepted text }
    ensures of_routes { (h : Happening) (s : Speaking) (text : List ℕ) → (turn h s).text ≡ Some text
        → (vlan : Key) × (s.kept.vlan ≡ Some vlan) × (text ≡ text_of vlan s.kept.tree (turn h s).known.peer.routes) }
    ensures differs { (h : Happening) (s : Speaking) (text : List ℕ) → (turn h s).text ≡ Some text → text ≢ s.kept.last }
    ensures last { (h : Happening) (s : Speaking) (text : List ℕ) → (turn h s).text ≡ Some text → (turn h s).kept.last ≡ text }
{}

/// Where a turn gives no text, the last one stays, and the text with the routes that there are then, where that gives a
/// configuration, is the last one.
pub fn no_text_is_no_change()
    ensures stays { (h : Happening) (s : Speaking) → (turn h s).text ≡ None → (turn h s).kept.last ≡ s.kept.last }
    ensures same { (h : Happening) (s : Speaking) (text : List ℕ) → (turn h s).text ≡ None
        → text_for s.kept.vlan s.kept.tree (turn h s).known.peer.routes ≡ Some text → text ≡ s.kept.last }
{}
