//! What a trace and a walk rest on. The functions call the laws that they stand on, and their contracts are the
//! laws.

ghost use Rattle.std.specs.Prelude.{◌≡◌, ◌↔◌, ℕ, List, Some, None, true, IsTrue};
ghost use Rattle.fg_outside.specs.declared.hub.Happening.{Happening};
ghost use Rattle.net_base.specs.declared.numbers.DpId.{DpId};
ghost use Rattle.of_match.specs.declared.packet.Packet.{Packet};
ghost use Rattle.stack_paths.specs.Stack.{IsJoined, IsNode};
ghost use Rattle.conf_types.specs.declared.datapath.Dp.{Dp};
ghost use Rattle.conf_types.specs.declared.state.UpRec.{UpRec};
ghost use Rattle.conf_types.specs.Configuration.{Configuration, dp_with};
ghost use Rattle.conf_types.specs.Links.{links};
ghost use Rattle.conf_types.specs.Valid.{IsValid};
ghost use Rattle.packet_way.specs.Known.{stack_of};
ghost use Rattle.cold_start.specs.Cold.{cold_at};
ghost use Rattle.net_walk.specs.Arrivals.{arrivals};
ghost use Rattle.ctl_world.specs.World.{first, now, ups};
ghost use Rattle.ctl_core.specs.Story.{behind, tables_of};
ghost use Rattle.law_traces.specs.Held.{held_by, walk_by};
ghost use Rattle.trace_story.specs.Ready.{is_joined, is_ready, unready};

use law_stories::laws::{after_each_turn_nothing_waits, whatever_happens_what_is_known_is_sound};

/// Datapaths of a valid configuration are joined exactly where they are of one connected part of its stack.
pub fn joined_datapaths_are_of_one_part()
    ensures { (conf : Configuration) (ups : List UpRec) (from to : DpId) → IsValid conf → IsNode (stack_of conf ups) from
        → IsTrue (is_joined (stack_of conf ups) from to) ↔ IsJoined (stack_of conf ups) from to }
{}

/// Whatever happened, what was sent to a datapath that is ready is its cold start by what is known.
pub fn a_ready_datapath_was_sent_its_cold_start()
    ensures { (conf : Configuration) (story : List Happening) (id : DpId) → IsValid conf
        → is_ready (behind (first conf) story) id ≡ true
        → tables_of (behind (first conf) story) id ≡ Some (cold_at (behind (first conf) story).conf (now (behind (first conf) story)) id) }
{
    after_each_turn_nothing_waits();
}

/// Where all datapaths are ready that links join to the one that a packet comes in at, its walk through the cold
/// starts is one through what the switches hold.
pub fn a_walk_goes_by_what_the_switches_hold()
    ensures { (conf : Configuration) (story : List Happening) (d : Dp) → IsValid conf
        → dp_with (behind (first conf) story).conf.dps d.id ≡ Some d → unready (behind (first conf) story) d.id ≡ None
        → (k port : ℕ) (p : Packet)
        → arrivals (behind (first conf) story).conf (now (behind (first conf) story)) k d.id port p
        ≡ walk_by (held_by (behind (first conf) story)) (behind (first conf) story).conf (links (behind (first conf) story).conf (ups (behind (first conf) story))) k d.id port p }
{
    whatever_happens_what_is_known_is_sound();
    a_ready_datapath_was_sent_its_cold_start();
}
