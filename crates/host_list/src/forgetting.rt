//! Taking out the hosts that leave.

ghost use Rattle.std.specs.Prelude.{◌≡◌, filter, not};
ghost use Rattle.host_list.specs.Leaving.{leaves};

use crate::order::{Leaving, Order};

/// Takes out the hosts that leave. Each is looked for from the place of the one before.
pub(crate) fn leave(order: &mut Order, leaving: &Leaving)
    ensures { order.new ≡ filter (λ e. not (leaves leaving.now e.1)) order.old }
{
    let mut from = 0;
    while let Some(place) = order.first_leaving(from, leaving) {
        order.remove(place);
        from = place;
    }
}
