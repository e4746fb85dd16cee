//! What holds of all that can happen to a controller. A function's contract is the law, and its body is at most
//! calls of the laws that it rests on.
#![tactic(auto)]

pub mod laws;

ghost use Rattle.std.specs.Prelude.{List};
ghost use Rattle.fg_outside.specs.declared.hub.Happening.{Happening};
ghost use Rattle.conf_types.specs.Configuration.{Configuration};
ghost use Rattle.conf_types.specs.Valid.{IsValid};
ghost use Rattle.law_stories.specs.Right.{IsRight};

use law_plans::cold::a_cold_start_sends_each_packet_as_described;
use laws::{
    after_each_turn_nothing_waits, what_the_laws_rest_on, whatever_happens_what_is_known_is_sound,
};

/// Whatever happens to a controller that begins with a valid configuration, all that is right holds.
pub fn whatever_happens_is_right()
    ensures { (conf : Configuration) (story : List Happening) → IsValid conf → IsRight conf story }
{
    what_the_laws_rest_on();
    a_cold_start_sends_each_packet_as_described();
    whatever_happens_what_is_known_is_sound();
    after_each_turn_nothing_waits();
}
