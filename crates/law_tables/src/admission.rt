//! The law: the function is empty, and its contract is the law.

ghost use Rattle.conf_types.specs.declared.datapath.Dp.{Dp};
ghost use Rattle.conf_types.specs.Configuration.{Configuration};
ghost use Rattle.conf_types.specs.State.{State};
ghost use Rattle.plan_units.specs.Laws.{IsSetting, AdmissionLaw};

/// What comes over the stack goes on in its VLAN, whatever the datapath drops; what comes in by an edge port
/// ends where the datapath drops it or no VLAN of the interface takes it, and else goes on with a tag of its
/// VLAN, with a copy to each mirror of the interface.
pub fn table_1_admits_as_described()
    ensures { (conf : Configuration) (now : State) (d : Dp) → IsSetting conf now d → AdmissionLaw conf now d }
{}
