//! The law: its contract is the law.

ghost use Rattle.std.specs.Prelude.{◌≡◌, ℕ, List, Ok};
ghost use Rattle.conf_types.specs.Configuration.{Configuration};
ghost use Rattle.conf_types.specs.Valid.{IsValid};
ghost use Rattle.conf_gather.specs.Gathered.{Held};
ghost use Rattle.conf_load.specs.Loaded.{loaded};

use conf_check::laws::an_accepted_configuration_is_valid;

/// What files give is valid.
pub fn a_loaded_configuration_is_valid()
    ensures { (held : Held) (name : List ℕ) (conf : Configuration) → loaded held name ≡ Ok conf → IsValid conf }
{
    an_accepted_configuration_is_valid();
}
