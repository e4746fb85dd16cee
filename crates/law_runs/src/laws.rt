//! Laws of the definitions: each function is empty, and its contract is the law.

ghost use Rattle.std.specs.Prelude.{◌≡◌, ◌++◌, ℕ, List, [], Option, Some, None};
ghost use Rattle.of_match.specs.declared.entry.Entry.{Entry};
ghost use Rattle.of_match.specs.declared.packet.Packet.{Packet};
ghost use Rattle.of_match.specs.declared.packet.Sent.{Sent};
ghost use Rattle.of_match.specs.Pipeline.{Misses};
ghost use Rattle.law_runs.specs.Decided.{IsDecided};
ghost use Rattle.law_runs.specs.Order.{AreSame};
ghost use Rattle.law_runs.specs.Runs.{Decides, SendsJust};

/// What a run from a table on sends, up to order: nothing where no entry takes the packet; what the table
/// sends where the packet goes on to none; and else what is sent from there on behind it.
pub fn a_run_sends_what_its_tables_send()
    ensures missed { (tables : List Entry) (port t : ℕ) (p : Packet) → Misses tables t port p → SendsJust tables port t p [] }
    ensures stopped { (tables : List Entry) (port t : ℕ) (p : Packet) (sent : List Sent)
        → Decides tables port t p sent None → SendsJust tables port t p sent }
    ensures went { (tables : List Entry) (port t : ℕ) (p : Packet) (sent : List Sent) (u : ℕ) (q : Packet) (rest : List Sent)
        → Decides tables port t p sent (Some (u, q)) → SendsJust tables port u q rest
        → SendsJust tables port t p (sent ++ rest) }
    ensures reordered { (tables : List Entry) (port t : ℕ) (p : Packet) (outs others : List Sent)
        → AreSame outs others → SendsJust tables port t p outs → SendsJust tables port t p others }
{}

/// An entry decides in a table where all that take the packet with its priority or a higher one do the
/// same, whichever of several best ones a switch takes (OpenFlow 1.3, 5.3).
pub fn an_entry_decides_where_none_above_it_does_otherwise()
    ensures { (tables : List Entry) (port t : ℕ) (p : Packet) (sent : List Sent) (on : Option (ℕ × Packet))
        → IsDecided t port p tables sent on → Decides tables port t p sent on }
{}
