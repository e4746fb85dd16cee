//! What the recording of a served controller comes to in a replay. The functions are empty, and their contracts are
//! the laws.

ghost use Rattle.std.specs.Prelude.{◌≡◌, ℕ, List, [], Option, Some, None};
ghost use Rattle.fg_outside.specs.declared.hub.Happening.{Happening};
ghost use Rattle.fg_outside.specs.Contents.{Contents, Tells};
ghost use Rattle.fg_outside.specs.Counts.{Rose};
ghost use Rattle.conf_types.specs.Configuration.{Configuration};
ghost use Rattle.recording.specs.declared.refused.RecordRefused.{RecordRefused};
ghost use Rattle.recording_hub.specs.RecordedStory.{AreHeld};
ghost use Rattle.ctl_world.specs.World.{World};
ghost use Rattle.hub_drive.specs.declared.sayings.Outlet.TheVariants.{Hub};
ghost use Rattle.hub_drive.specs.declared.replay.Replayed.TheVariants.{Read};
ghost use Rattle.hub_drive.specs.Driving.{IsFront};
ghost use Rattle.ctl_drive.specs.Driving.{deeds_of, records_of};
ghost use Rattle.recording.specs.Script.{IsStoryOf};
ghost use Rattle.ctl_drive.specs.Replay.{Replays, WritesAll, closed_in};
ghost use Rattle.ctl_recorded.specs.RecordedRun.{IsRecording, IsRecordingSoFar};
ghost use Rattle.law_served.specs.Spoken.{deeds_in, spoken};

/// Where each happening is one that a record holds as it is (none that ended a connection by another cause than its
/// end, no text of a configuration of more than 1,048,576 bytes): a replay of the same configuration on what the sink
/// took, behind nothing, has just what happened as its story, to the end of the recording. So what it writes is the
/// records and the lines of that.
pub fn a_replay_tells_what_happened()
    ensures story { (conf : Configuration) (happened other : List Happening) (bytes : List ℕ) (refused : Option RecordRefused) → AreHeld happened
        → IsRecording conf happened (Some []) (Some bytes) → IsStoryOf bytes other (closed_in conf other) refused → (other ≡ happened) × (refused ≡ None) }
    ensures written { (conf : Configuration) (happened : List Happening) (bytes name : List ℕ) (contents : Option Contents) (absences_old absences_new faults_old faults_new : ℕ)
        (out_old out err_old err : Option (List ℕ)) (refused : Option RecordRefused) → AreHeld happened
        → IsRecording conf happened (Some []) (Some bytes) → Tells contents name (Some bytes)
        → Replays contents name (Rose absences_old absences_new) (Rose faults_old faults_new) conf out_old out err_old err (Read refused) → WritesAll conf happened out_old out err_old err × (refused ≡ None) }
{}

/// Where the recording broke off, or a front of one more record may stand behind it: what happened is a front of the
/// story that a replay has of it.
pub fn a_broken_recording_tells_what_happened_first()
    ensures { (conf : Configuration) (happened other : List Happening) (bytes : List ℕ) (refused : Option RecordRefused) → AreHeld happened
        → IsRecordingSoFar conf happened (Some []) (Some bytes) → IsStoryOf bytes other (closed_in conf other) refused → IsFront happened other }
{}

/// The records of a story are what a hub is told in it: the same messages on the same connections, and the same
/// connections closed, in the same order.
pub fn records_say_what_was_said()
    ensures { (w : World) (happened : List Happening) → deeds_in (records_of w happened) ≡ spoken (deeds_of Hub w happened) }
{}
