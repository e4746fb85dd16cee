//! The laws. A function's contract is the law, and its body is at most calls of the laws that it rests on.

ghost use Rattle.std.specs.Prelude.{◌≡◌, ℕ, List, Contains, Ok, true};
ghost use Rattle.fg_outside.specs.declared.hub.Happening.{Happening};
ghost use Rattle.fg_outside.specs.declared.hub.Happening.TheVariants.{Reload};
ghost use Rattle.conf_types.specs.Configuration.{Configuration};
ghost use Rattle.conf_types.specs.Valid.{IsValid};
ghost use Rattle.ctl_world.specs.World.{World, now};
ghost use Rattle.ctl_core.specs.Reloading.{accepted};
ghost use Rattle.ctl_core.specs.Turns.{turn};
ghost use Rattle.conf_types.specs.declared.change.Change.{Change};
ghost use Rattle.conf_types.specs.Changes.{AreNamed};
ghost use Rattle.law_names.specs.Differing.{differs};
ghost use Rattle.law_changes.specs.Turns.{changes_of};

/// Whatever happens but a reload that is accepted, each host, neighbour, port state and datapath that the turn
/// changes is named, and the configuration stays. What is named differs.
pub fn what_a_turn_changes_is_named()
    ensures conf { (h : Happening) (w : World) → IsValid w.conf → ((text : List ℕ) (next : Configuration) → h ≡ Reload text → accepted text ≡ Ok next → ⊥)
        → (turn h w).conf ≡ w.conf }
    ensures named { (h : Happening) (w : World) → IsValid w.conf → ((text : List ℕ) (next : Configuration) → h ≡ Reload text → accepted text ≡ Ok next → ⊥)
        → AreNamed w.conf (now w) (now (turn h w)) (changes_of h w) }
    ensures exact { (h : Happening) (w : World) (c : Change) → Contains (changes_of h w) c → differs w.conf (now w) (now (turn h w)) c ≡ true }
{}
