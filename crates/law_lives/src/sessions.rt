//! What is right of a story, connection by connection: the function is a proof alone, and its contract is the law.

ghost use Rattle.std.specs.Prelude.{ℕ, List};
ghost use Rattle.fg_outside.specs.declared.hub.Happening.{Happening};
ghost use Rattle.conf_types.specs.Configuration.{Configuration};
ghost use Rattle.ctl_world.specs.Connections.{conn_with};
ghost use Rattle.ctl_world.specs.World.{first};
ghost use Rattle.ctl_core.specs.Story.{behind};
ghost use Rattle.law_lives.specs.Lives.{Turn, behind_turns, none_lives};
ghost use Rattle.law_lives.specs.Sessions.{AreRightTurns, IsOf, Tells};

use cold_start::laws::a_cold_start_is_the_plan_in_key_order;
use law_frames::frames::a_frame_is_decoded_as_it_is_spelled;

/// Whatever happens, there is a log of it, with what was said, and with the frames of the pieces between, in
/// which each connection lives as it is to: by the grammar of frames and messages, by what its session makes of
/// them, and by what may be said where. What the controller has of each connection is what its life comes to.
pub fn each_connection_lives_as_it_is_to()
    ensures { (conf : Configuration) (story : List Happening) → (log : List Turn) × Tells conf story log × AreRightTurns log none_lives
        × ((number : ℕ) → IsOf (behind_turns log none_lives number) (conn_with (behind (first conf) story).conns number)) }
{
    a_cold_start_is_the_plan_in_key_order();
    a_frame_is_decoded_as_it_is_spelled();
}
