//! The laws of names. A function's contract is the law, and its body does nothing.

ghost use Rattle.std.specs.Prelude.{◌≡◌, ℕ, ◌≤◌, ◌↔◌, ◌++◌, [], List, Contains, filter, length, true, false};
ghost use Rattle.conf_types.specs.Configuration.{Configuration};
ghost use Rattle.conf_types.specs.State.{State};
ghost use Rattle.conf_types.specs.declared.datapath.Dp.{Dp};
ghost use Rattle.plan_units.specs.declared.unit.Unit.{Unit as PlanUnit};
ghost use Rattle.ctl_world.specs.World.{World};
ghost use Rattle.law_units.specs.Reached.{is_reached};
ghost use Rattle.conf_types.specs.declared.change.Change.{Change};
ghost use Rattle.conf_types.specs.Changes.{AreNamed};
ghost use Rattle.law_names.specs.Differences.{AreAsFresh, differences};
ghost use Rattle.law_names.specs.Differing.{differing, differs};
ghost use Rattle.law_names.specs.Names.{Names};

/// Between equal states nothing is to be named (`none`); more names do no harm (`more`); what differs over two
/// steps is named by the names of both (`through`), as of two steps of a controller (`steps`); and what doesn't differ
/// needn't be named (`exact`).
pub fn names_may_be_joined()
    ensures none { (conf : Configuration) (s : State) → AreNamed conf s s [] }
    ensures more { (conf : Configuration) (old new : State) (xs ys : List Change) → ((c : Change) → Contains xs c → Contains ys c)
        → AreNamed conf old new xs → AreNamed conf old new ys }
    ensures through { (conf : Configuration) (a b c : State) (xs ys : List Change)
        → AreNamed conf a b xs → AreNamed conf b c ys → AreNamed conf a c (xs ++ ys) }
    ensures exact { (conf : Configuration) (old new : State) (xs : List Change)
        → AreNamed conf old new xs → AreNamed conf old new (differing conf old new xs) }
    ensures steps { (a b c : World) (xs ys : List Change) → Names a b xs → Names b c ys → Names a c (xs ++ ys) }
{}

/// What is in one of two states names all that differs between them, whatever led from the one to the other.
pub fn all_that_differs_is_named()
    ensures { (conf : Configuration) (old new : State) → AreNamed conf old new (differences conf old new) }
{}

/// A change is one of the differences of two states exactly where what it names isn't the same in both.
pub fn the_differences_are_what_differs()
    ensures { (conf : Configuration) (old new : State) (c : Change) → Contains (differences conf old new) c ↔ (differs conf old new c ≡ true) }
{}

/// What one of two steps alone changes differs over both (`first`, `second`).
pub fn what_one_step_alone_changes_differs()
    ensures first { (conf : Configuration) (a b d : State) (c : Change) → differs conf a b c ≡ true → differs conf b d c ≡ false → differs conf a d c ≡ true }
    ensures second { (conf : Configuration) (a b d : State) (c : Change) → differs conf a b c ≡ false → differs conf b d c ≡ true → differs conf a d c ≡ true }
{}

/// What changes reach is reached by more of them (`reached`), so of a list of units no fewer are reached (`counted`);
/// changes each of which differs reach no more than all the differences of the two states (`bounded`).
pub fn more_changes_reach_no_less()
    ensures reached { (conf : Configuration) (old new : State) (d : Dp) (xs ys : List Change) (u : PlanUnit) → ((c : Change) → Contains xs c → Contains ys c)
        → is_reached conf old new d xs u ≡ true → is_reached conf old new d ys u ≡ true }
    ensures counted { (conf : Configuration) (old new : State) (d : Dp) (xs ys : List Change) (units : List PlanUnit) → ((c : Change) → Contains xs c → Contains ys c)
        → length (filter (is_reached conf old new d xs) units) ≤ length (filter (is_reached conf old new d ys) units) }
    ensures bounded { (conf : Configuration) (old new : State) (d : Dp) (touched : List Change) (units : List PlanUnit) → ((c : Change) → Contains touched c → differs conf old new c ≡ true)
        → length (filter (is_reached conf old new d touched) units) ≤ length (filter (is_reached conf old new d (differences conf old new)) units) }
{}

/// A state at another moment has the same differences from any other state where its hosts are as fresh then
/// (`differences`), and at whatever moment changes reach the same (`reach`).
pub fn a_moment_alone_changes_no_difference()
    ensures differences { (conf : Configuration) (old new : State) (moment : ℕ) → AreAsFresh conf old moment
        → differences conf (record old { moment = moment }) new ≡ differences conf old new }
    ensures reach { (conf : Configuration) (old new : State) (moment : ℕ) (d : Dp) (xs : List Change) (u : PlanUnit)
        → is_reached conf (record old { moment = moment }) new d xs u ≡ is_reached conf old new d xs u }
{}
