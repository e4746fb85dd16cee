//! The laws: each function is empty, and its contract is the law.

ghost use Rattle.std.specs.Prelude.{◌≡◌, ◌≤◌, ◌*◌, ◌++◌, ◌∷◌, [], ℕ, List, length, true};
ghost use Rattle.std.specs.List.{AllByRecursion};
ghost use Rattle.conf_types.specs.Configuration.{Configuration};
ghost use Rattle.conf_types.specs.State.{State, IsValidState, most_hosts};
ghost use Rattle.conf_types.specs.Valid.{IsValid};
ghost use Rattle.fg_links.specs.HubInMemory.{lacks_memory, refuses};
ghost use Rattle.fg_outside.specs.HubStep.{HubStep, turned, said, Leads};
ghost use Rattle.fg_outside.specs.declared.hub.EndCause.{EndCause};
ghost use Rattle.fg_outside.specs.declared.hub.Happening.TheVariants.{Closed};
ghost use Rattle.fg_outside.specs.declared.hub.Said.TheVariants.{Gone};
ghost use Rattle.fg_outside.specs.declared.hub.Turn.{Turn};
ghost use Rattle.fg_outside.specs.declared.hub.Turn.TheVariants.{Happened};
ghost use Rattle.host_learn.specs.Table.{Table};
ghost use Rattle.link_hub.specs.Hub.{IsFresh, most_empty};
ghost use Rattle.law_calls.specs.declared.hosts.HostCall.{HostCall};
ghost use Rattle.law_calls.specs.declared.hosts.HostAnswer.{HostAnswer};
ghost use Rattle.law_calls.specs.Hosts.{HasCause, IsMade, IsMadeUnder, Makes, is_refused};
ghost use Rattle.law_calls.specs.Hubs.{IsSaying, IsTurn};
ghost use Rattle.law_calls.specs.Links.{AsksWithin, IsEnd, OneStep, OpensWithin, SayCause, TurnCause, WaitsWithin, turns_in};
ghost use Rattle.law_calls.specs.Runs.{Run};

use fg_links::Poller;
use fg_outside::Hub;
use link_hub::LinkHub;

// ---- the table of hosts

/// Whatever calls are made of a table of hosts, its limit stays, and it never holds more.
pub fn no_call_passes_the_limit_of_a_table()
    ensures { (from to : Table) (calls : List HostCall) → length from.hosts ≤ from.limit → Run IsMade from calls to
        → (to.limit ≡ from.limit) × (length to.hosts ≤ to.limit) }
{}

/// Whatever calls are made of a table under a valid configuration, who is heard standing at ports that are up, of
/// datapaths that run: its hosts stay valid. So no port and no VLAN has more than it may.
pub fn no_call_passes_the_limit_of_a_port()
    ensures { (conf : Configuration) (state : State) (from to : Table) (calls : List HostCall) → IsValid conf → from.limit ≤ most_hosts
        → IsValidState conf (record state { hosts = from.hosts }) → Run (IsMadeUnder conf state) from calls to
        → IsValidState conf (record state { hosts = to.hosts }) }
{}

/// A call of a table that is refused, for whatever cause, leaves the table as it was.
pub fn a_refused_call_changes_no_table()
    ensures { (old new : Table) (call : HostCall) (answer : HostAnswer) → Makes old call answer new → is_refused answer ≡ true → new ≡ old }
{}

/// Each refusal of a table but want of memory has its cause in the table, the call and the configuration.
pub fn each_refusal_of_a_table_has_its_cause()
    ensures { (old new : Table) (call : HostCall) (answer : HostAnswer) → Makes old call answer new → HasCause old call answer }
{}

// ---- the hub of links

/// A turn that gives nothing, and a piece that isn't taken, have their cause; want of memory has none.
pub fn each_refusal_of_a_hub_has_its_cause<P: Poller>()
    ensures turned { (old new : _) (turn : Turn) → IsTurn ⟦<LinkHub<P> as Hub>⟧ old turn new → TurnCause P.Poller old turn new }
    ensures said { (old new : _) (conn : ℕ) (piece : List ℕ) → IsSaying ⟦<LinkHub<P> as Hub>⟧ conn piece old Gone new → SayCause P.L.Link conn piece old new }
{}

/// Where a turn tells that a connection ended, then in this call or an earlier one of the run its link was let go, for
/// the cause that is told: it had given all that it had, it had failed since it opened, or more would have waited than
/// may.
pub fn each_end_has_its_cause<P: Poller>()
    ensures { (poller : _) (from old new : _) (steps : List HubStep) (conn : ℕ) (cause : EndCause) → IsFresh poller from
        → Leads ⟦<LinkHub<P> as Hub>⟧.may from steps old → ⟦<LinkHub<P> as Hub>⟧.may old (turned (Happened (Closed conn cause))) new
        → OneStep ⟦<LinkHub<P> as Hub>⟧.may (IsEnd P.L.Link conn cause) from (steps ++ turned (Happened (Closed conn cause)) ∷ []) new }
{}

/// Behind a call in which memory ran out every turn and every saying answers so: a spent hub does nothing.
pub fn a_spent_hub_refuses_all<P: Poller>()
    ensures { (old mid to : _) (step : HubStep) (steps : List HubStep) → lacks_memory step ≡ true → ⟦<LinkHub<P> as Hub>⟧.may old step mid
        → Leads ⟦<LinkHub<P> as Hub>⟧.may mid steps to → AllByRecursion (λ s. refuses s ≡ true) steps }
{}

/// Whatever calls are made of a hub: at most 67,108,864 bytes wait on an open link, at most 256 connections are open,
/// and for each turn the poller was asked for at most 1,024 answers.
pub fn no_call_passes_a_limit_of_a_hub<P: Poller>()
    ensures waiting { (poller : _) (from to : _) (steps : List HubStep) → IsFresh poller from → Leads ⟦<LinkHub<P> as Hub>⟧.may from steps to → WaitsWithin to }
    ensures open { (poller : _) (from to : _) (steps : List HubStep) → IsFresh poller from → Leads ⟦<LinkHub<P> as Hub>⟧.may from steps to → OpensWithin to }
    ensures asked { (from to : _) (steps : List HubStep) → Leads ⟦<LinkHub<P> as Hub>⟧.may from steps to → AsksWithin P.Poller (most_empty * turns_in steps) from to }
{}
