//! That it doesn't matter how the network cuts what a switch sends. The function is empty, and its contract is
//! the law.

ghost use Rattle.std.specs.Prelude.{◌≡◌, ℕ, List, ◌∷◌, ◌++◌};
ghost use Rattle.fg_outside.specs.declared.hub.Happening.{Happening};
ghost use Rattle.fg_outside.specs.declared.hub.Happening.TheVariants.{Heard};
ghost use Rattle.ctl_world.specs.World.{World};
ghost use Rattle.ctl_core.specs.Story.{behind, said_by_turn};
ghost use Rattle.law_recordings.specs.Pieces.{in_a_row, known_only};

/// Where bytes of a connection come in two pieces, one behind the other at one moment, or in one, the same is said
/// of them, in the same order, and the same is known behind them and said of all that follows.
pub fn how_bytes_are_cut_changes_nothing()
    ensures known { (number : ℕ) (first second : List ℕ) (w : World) (more : List Happening)
        → known_only (behind w (Heard number first ∷ Heard number second ∷ more)) ≡ known_only (behind w (Heard number (first ++ second) ∷ more)) }
    ensures said { (number : ℕ) (first second : List ℕ) (w : World) (more : List Happening)
        → in_a_row (said_by_turn w (Heard number first ∷ Heard number second ∷ more)) ≡ in_a_row (said_by_turn w (Heard number (first ++ second) ∷ more)) }
{}
