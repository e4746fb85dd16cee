//! What holds of the definitions. The functions do nothing: their contracts are the laws.

ghost use Rattle.std.specs.Prelude.{◌≡◌, ◌≤◌, [], ℕ, List, Bool, true, filter, is_some, IsTrue};
ghost use Rattle.std.specs.List.{AllByRecursion};
ghost use Rattle.net_base.specs.declared.numbers.DpId.{DpId};
ghost use Rattle.conf_types.specs.declared.state.HostRec.{HostRec};
ghost use Rattle.conf_types.specs.declared.state.UpRec.{UpRec};
ghost use Rattle.conf_types.specs.Configuration.{Configuration, port_at};
ghost use Rattle.conf_types.specs.Groups.{IsDp};
ghost use Rattle.conf_types.specs.Links.{is_up};
ghost use Rattle.conf_types.specs.State.{State, IsNeighbour, IsValidState, is_running, most_hosts};
ghost use Rattle.conf_types.specs.Valid.{IsValid};
ghost use Rattle.host_learn.specs.Kept.{kept_hosts};
ghost use Rattle.host_learn.specs.Learning.{learned};
ghost use Rattle.host_list.specs.Parts.{IsPartOf};
ghost use Rattle.host_learn.specs.Table.{Table};

/// What is kept is a part of what was, in the same order and with the same moments.
pub fn what_is_kept_is_a_part_of_what_was()
    ensures { (conf : Configuration) (ups : List UpRec) (moment : ℕ) (table : Table) → IsPartOf (kept_hosts conf ups moment table) table.hosts }
{}

/// A valid state without hosts is valid with the hosts that are kept, where their datapaths run: they
/// stand where hosts are learned, have keys of their own, and pass no limit.
pub fn what_is_kept_is_valid()
    ensures { (conf : Configuration) (state : State) (moment : ℕ) (table : Table) → IsValid conf → table.limit ≤ most_hosts
        → IsValidState conf (record state { hosts = [] })
        → AllByRecursion (λ host. is_running state.running host.dp ≡ true) (kept_hosts conf state.ups moment table)
        → IsValidState conf (record state { hosts = kept_hosts conf state.ups moment table }) }
{}

/// A valid state stays valid with the hosts that learning leaves, where the one that is heard stands at a
/// port that is up, of a datapath that runs.
pub fn what_is_learned_is_valid()
    ensures { (conf : Configuration) (state : State) (limit : ℕ) (heard : HostRec) → IsValid conf → limit ≤ most_hosts → IsValidState conf state
        → is_running state.running heard.dp ≡ true → is_up state.ups heard.dp heard.port ≡ true
        → IsValidState conf (record state { hosts = (learned conf (record { limit = limit; hosts = state.hosts }) heard).hosts }) }
{}

/// A valid state is valid with other datapaths running, other ports up and a part of its hosts, where
/// these datapaths and ports are the configuration's, a datapath of each neighbour's group runs, and the
/// hosts of the part stand at ports that are up, of datapaths that run.
pub fn a_part_of_the_hosts_is_valid()
    ensures { (conf : Configuration) (state : State) (running : List DpId) (ups : List UpRec) (test : HostRec → Bool) → IsValidState conf state
        → AllByRecursion (IsDp conf) running → AllByRecursion (λ up. IsTrue (is_some (port_at conf up.dp up.port))) ups
        → AllByRecursion (IsNeighbour conf (record state { running = running })) state.neighbours
        → ((h : HostRec) → test h ≡ true → is_running running h.dp ≡ true)
        → ((h : HostRec) → test h ≡ true → is_up ups h.dp h.port ≡ true)
        → IsValidState conf (record state { running = running; ups = ups; hosts = filter test state.hosts }) }
{}
