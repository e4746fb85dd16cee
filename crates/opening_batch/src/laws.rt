//! The law of an opening batch: its contract is the law, and its body calls the laws that it rests on.

ghost use Rattle.std.specs.Prelude.{◌≡◌, ℕ, List, Some};
ghost use Rattle.conf_types.specs.Configuration.{Configuration};
ghost use Rattle.conf_types.specs.Valid.{IsValid};
ghost use Rattle.opening_batch.specs.Opened.{Opens};
ghost use Rattle.opening_batch.specs.Opening.{opening_of};

/// The opening batch of a datapath opens it: behind its last barrier a switch holds exactly the cold
/// start, whose tables send every packet as the configuration describes.
pub fn an_opening_batch_opens_the_datapath()
    ensures { (conf : Configuration) (dp batch : List ℕ) → IsValid conf → opening_of conf dp ≡ Some batch → Opens conf dp batch }
{
    of_wire::laws::parts_take_few_bytes();
    of13_codec::laws::written_message_is_spelled();
    law_entries::lengths::each_entry_is_short();
    cold_start::laws::a_cold_start_is_the_plan_in_key_order();
    cold_start::laws::a_switch_accepts_each_entry();
    cold_start::laws::a_switch_holds_the_cold_start();
    law_plans::cold::a_cold_start_sends_each_packet_as_described();
}
