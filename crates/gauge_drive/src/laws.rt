//! What holds of the definitions. The functions do nothing: their contracts are the laws.

ghost use Rattle.std.specs.Prelude.{◌≡◌, List};
ghost use Rattle.fg_outside.specs.declared.hub.Happening.{Happening};
ghost use Rattle.hub_drive.specs.declared.sayings.Outlet.TheVariants.{Hub, Nowhere};
ghost use Rattle.hub_drive.specs.Driving.{out_of};
ghost use Rattle.gauge_poll.specs.Monitoring.{Monitor, lines_of};
ghost use Rattle.gauge_drive.specs.Gauge.{joined, monitor};

/// What goes to standard output of a story are the lines and blocks that Gauge gives of it.
pub fn what_is_printed_are_the_lines()
    ensures recorded { (m : Monitor) (story : List Happening) → out_of monitor Nowhere m story ≡ joined (lines_of m story) }
    ensures served { (m : Monitor) (story : List Happening) → out_of monitor Hub m story ≡ joined (lines_of m story) }
{}
