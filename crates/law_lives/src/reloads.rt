//! What a reload closes, and what one leaves whose text has the configuration that is in force. The functions are empty but for calls
//! of the laws that they rest on, and their contracts are the laws.

ghost use Rattle.std.specs.Prelude.{List};
ghost use Rattle.std.specs.List.{AllByRecursion};
ghost use Rattle.fg_outside.specs.declared.hub.Happening.{Happening};
ghost use Rattle.conf_types.specs.Configuration.{Configuration};
ghost use Rattle.conf_types.specs.Valid.{IsValid};
ghost use Rattle.ctl_world.specs.World.{first};
ghost use Rattle.law_lives.specs.Steps.{turns};
ghost use Rattle.law_lives.specs.Gone.{ClosesTheGone};
ghost use Rattle.law_lives.specs.Same.{KeepsAllHosts};

use law_stories::laws::what_the_laws_rest_on;

/// Whatever happens to a controller that begins with a valid configuration, over a reload with the same configuration all hosts
/// stay, in order.
pub fn all_hosts_stay_over_a_reload_of_the_same()
    ensures { (conf : Configuration) (story : List Happening) → IsValid conf → AllByRecursion KeepsAllHosts (turns (first conf) story) }
{
    what_the_laws_rest_on();
}

/// Whatever happens, a reload that is accepted closes exactly the open connections of datapaths that its configuration hasn't, and one
/// that is refused none.
pub fn a_reload_closes_exactly_what_is_gone()
    ensures { (conf : Configuration) (story : List Happening) → AllByRecursion ClosesTheGone (turns (first conf) story) }
{
    what_the_laws_rest_on();
}
