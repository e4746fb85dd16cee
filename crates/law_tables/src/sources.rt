//! The law: the function is empty, and its contract is the law.

ghost use Rattle.conf_types.specs.declared.datapath.Dp.{Dp};
ghost use Rattle.conf_types.specs.Configuration.{Configuration};
ghost use Rattle.conf_types.specs.State.{State};
ghost use Rattle.plan_units.specs.Laws.{IsSetting, SourceLaw};

/// A host that is known where it is goes on, with a copy for the controller where it is stale; one that
/// stays elsewhere ends; any other source goes on, with a copy where a host may be learned.
pub fn table_3_does_as_the_source_says()
    ensures { (conf : Configuration) (now : State) (d : Dp) → IsSetting conf now d → SourceLaw conf now d }
{}
