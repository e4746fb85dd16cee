//! Looks at files: the function is empty, and its contract is the law.

ghost use Rattle.std.specs.Prelude.{◌≡◌, ◌≤◌, ◌↔◌, ℕ, List, length, Some, Ok};
ghost use Rattle.yaml_tree.specs.declared.tree.Tree.{Tree};
ghost use Rattle.yaml_subset.specs.Printed.{printed};
ghost use Rattle.conf_types.specs.Configuration.{Configuration};
ghost use Rattle.conf_gather.specs.Gathered.{Held, gathered};
ghost use Rattle.conf_load.specs.Loaded.{loaded};
ghost use Rattle.watch_hub.specs.Look.{front_of, text_of};
ghost use Rattle.ctl_core.specs.Reloading.{accepted};

use conf_gather::laws::a_gathered_tree_is_sound;
use law_texts::texts::{a_canonical_text_has_its_tree, a_text_is_read_by_the_grammar};

/// Files that are gathered, and whose canonical text isn't too long, have a text that a look finds. As a reload it has exactly the
/// configuration that loading the files gives. The front of a file that a look finds where gathering is refused has the
/// configuration of the whole file.
pub fn a_look_at_files_reloads_what_they_give()
    ensures gathered { (held : Held) (name : List ℕ) (t : Tree) (conf : Configuration) → gathered held name ≡ Ok t → length (printed t) ≤ 1048576
        → (text : List ℕ) × (text_of held name ≡ Some text) × ((accepted text ≡ Ok conf) ↔ (loaded held name ≡ Ok conf)) }
    ensures front { (main : List ℕ) → accepted (front_of main) ≡ accepted main }
{
    a_gathered_tree_is_sound();
    a_canonical_text_has_its_tree();
    a_text_is_read_by_the_grammar();
}
