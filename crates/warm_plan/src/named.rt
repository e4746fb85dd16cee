//! What changes name, beside the units that they reach.

ghost use Rattle.std.specs.Prelude.{◌≡◌};
ghost use Rattle.std.specs.List.{list_any};
ghost use Rattle.warm_plan.specs.Named.{names_link, names_neighbour};

use crate::effect::is_stack_port;
use conf_types::{Change, Conf};

fn names_neighbour(change: &Change) -> bool
    ensures { result ≡ names_neighbour change.now }
{
    match change {
        Change::Host { .. } => false,
        Change::Port { .. } => false,
        Change::Dp(_) => false,
        Change::Neighbour { .. } => true,
    }
}

fn names_link(conf: &Conf, change: &Change) -> bool
    ensures { result ≡ names_link conf.now change.now }
{
    match change {
        Change::Host { .. } => false,
        Change::Port { dp, port } => is_stack_port(conf, *dp, *port),
        Change::Dp(_) => false,
        Change::Neighbour { .. } => false,
    }
}

/// Whether changes name a neighbour.
pub(crate) fn name_neighbour(changes: &[Change]) -> bool
    ensures { result ≡ list_any names_neighbour changes.now }
{
    changes.iter().any(|change| names_neighbour(change))
}

/// Whether changes name an end of a stack link.
pub(crate) fn name_link(conf: &Conf, changes: &[Change]) -> bool
    ensures { result ≡ list_any (names_link conf.now) changes.now }
{
    changes.iter().any(|change| names_link(conf, change))
}
