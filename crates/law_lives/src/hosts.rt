//! Which hosts a controller knows, whatever happens: those that were heard, fit, and weren't taken out since. The
//! functions are empty but for calls of the laws that they rest on, and their contracts are the laws.

ghost use Rattle.std.specs.Prelude.{List};
ghost use Rattle.std.specs.List.{AllByRecursion};
ghost use Rattle.fg_outside.specs.declared.hub.Happening.{Happening};
ghost use Rattle.conf_types.specs.Configuration.{Configuration};
ghost use Rattle.conf_types.specs.Valid.{IsValid};
ghost use Rattle.ctl_world.specs.World.{first};
ghost use Rattle.law_lives.specs.Hosts.{KnowsItsHosts, KnowsTheHeard};
ghost use Rattle.law_lives.specs.Reloads.{KeepsItsHosts};
ghost use Rattle.law_lives.specs.Steps.{frames, turns};

use law_stories::laws::what_the_laws_rest_on;

/// Whatever happens to a controller that begins with a valid configuration, behind each frame that is heard exactly those hosts
/// are known: the one that the frame lets learn, where it tells of one that fits, and all others that were known before but for one
/// with its group, VLAN and address; or, where it lets learn none, those that stand still, in order.
pub fn whatever_is_heard_its_host_is_known()
    ensures { (conf : Configuration) (story : List Happening) → IsValid conf → AllByRecursion KnowsTheHeard (frames (first conf) story) }
{
    what_the_laws_rest_on();
}

/// Whatever happens, where a connection opens, or ends, or the clock shows a moment, those hosts stay, in order, that stand
/// still, at a moment without those that are to be forgotten then.
pub fn whatever_happens_hosts_stay_where_they_stand()
    ensures { (conf : Configuration) (story : List Happening) → IsValid conf → AllByRecursion KnowsItsHosts (turns (first conf) story) }
{
    what_the_laws_rest_on();
}

/// Over a reload a part of the hosts stays, in order, and of each that doesn't there is a cause.
pub fn hosts_stay_over_a_reload_but_for_a_cause()
    ensures { (conf : Configuration) (story : List Happening) → IsValid conf → AllByRecursion KeepsItsHosts (turns (first conf) story) }
{
    what_the_laws_rest_on();
}
