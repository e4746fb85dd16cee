//! A text worked out by hand: the function does nothing, and its clause is proved by computing the
//! definition.

ghost use Rattle.std.specs.Prelude.{◌≡◌};
ghost use Rattle.conf_json.specs.Text.{json_text};
ghost use Rattle.conf_json.specs.Worked.{quick_start, quick_start_line};

/// The text of the configuration of two hosts in one VLAN.
pub fn quick_start_has_its_line()
    ensures { json_text quick_start ≡ quick_start_line }
{}
