//! That what `replay` and `gauge` write of a recording, wherever they stop, is of the one answer to it. The functions are empty, and
//! their contracts are the laws.

ghost use Rattle.std.specs.Prelude.{◌≡◌, ℕ, List, Option};
ghost use Rattle.fg_outside.specs.declared.hub.Happening.{Happening};
ghost use Rattle.fg_outside.specs.Contents.{Contents};
ghost use Rattle.conf_types.specs.Configuration.{Configuration};
ghost use Rattle.gauge_conf.specs.declared.gauge.GaugeConf.{GaugeConf};
ghost use Rattle.command_line.specs.declared.meaning.Job.TheVariants.{Gauge, Replay};
ghost use Rattle.recording.specs.declared.record.Record.{Record};
ghost use Rattle.recording.specs.declared.refused.RecordRefused.{RecordRefused};
ghost use Rattle.recording.specs.Turns.{turns};
ghost use Rattle.ctl_world.specs.World.{first};
ghost use Rattle.gauge_poll.specs.Monitoring.{begun};
ghost use Rattle.hub_drive.specs.declared.sayings.Outlet.TheVariants.{Nowhere, Records};
ghost use Rattle.hub_drive.specs.Driving.{closings_of};
ghost use Rattle.ctl_drive.specs.Controller.{controller};
ghost use Rattle.gauge_drive.specs.Gauge.{monitor};
ghost use Rattle.law_answers.specs.Answers.{AnswersFront, EachReplyLeaves, IsGaugeOf, IsReplayOf, IsSpentAt7, StopsUnread};

/// Records tell exactly one story that fits what Gauge closes in it.
pub fn records_tell_gauge_one_story()
    ensures some { (conf : GaugeConf) (records : List Record) → (story : List Happening) × (story ≡ turns records (closings_of monitor 0 (begun conf) story)) }
    ensures one { (conf : GaugeConf) (records : List Record) (story other : List Happening)
        → story ≡ turns records (closings_of monitor 0 (begun conf) story) → other ≡ turns records (closings_of monitor 0 (begun conf) other) → story ≡ other }
{}

/// Whatever the status, what a replay writes on standard output is a front of what the controller says of the one story of its
/// recording, and its lines are a front of that story's, with the one behind that says how it ended; so at 4 and 8 too. So it is
/// with the lines and blocks that Gauge gives of a recording's one story.
pub fn what_a_replay_writes_is_a_front_of_the_one_answer()
    ensures replay { (config recording : List ℕ) (held : Contents) (conf : Configuration) (story : List Happening) (refused : Option RecordRefused)
        → IsReplayOf (held 0) config recording conf story refused
        → EachReplyLeaves (Replay config recording) held (λ o0 o1 e0 e1 status. AnswersFront controller Records (first conf) story o0 o1 e0 e1) }
    ensures gauge { (config recording : List ℕ) (held : Contents) (conf : GaugeConf) (story : List Happening) (refused : Option RecordRefused)
        → IsGaugeOf (held 0) config recording conf story refused
        → EachReplyLeaves (Gauge config recording) held (λ o0 o1 e0 e1 status. AnswersFront monitor Nowhere (begun conf) story o0 o1 e0 e1) }
{}

/// At status 3 the turns before the read that failed are answered whole, and nothing else is.
pub fn a_failed_read_leaves_whole_turns()
    ensures replay { (config recording : List ℕ) (held : Contents) (conf : Configuration) (story : List Happening) (refused : Option RecordRefused)
        → IsReplayOf (held 0) config recording conf story refused
        → EachReplyLeaves (Replay config recording) held (λ o0 o1 e0 e1 status. status ≡ 3 → StopsUnread controller Records (first conf) story o0 o1 e0 e1) }
    ensures gauge { (config recording : List ℕ) (held : Contents) (conf : GaugeConf) (story : List Happening) (refused : Option RecordRefused)
        → IsGaugeOf (held 0) config recording conf story refused
        → EachReplyLeaves (Gauge config recording) held (λ o0 o1 e0 e1 status. status ≡ 3 → StopsUnread monitor Nowhere (begun conf) story o0 o1 e0 e1) }
{}

/// Status 7 comes where the story has as many turns as may be taken, or more, and these are answered whole; at 0 and at 5 it has
/// fewer. So where no write and no read failed and memory didn't run out, 7 comes exactly where so many turns were taken.
pub fn turns_are_spent_exactly_at_7()
    ensures replay { (config recording : List ℕ) (held : Contents) (conf : Configuration) (story : List Happening) (refused : Option RecordRefused)
        → IsReplayOf (held 0) config recording conf story refused
        → EachReplyLeaves (Replay config recording) held (IsSpentAt7 controller Records (first conf) story) }
    ensures gauge { (config recording : List ℕ) (held : Contents) (conf : GaugeConf) (story : List Happening) (refused : Option RecordRefused)
        → IsGaugeOf (held 0) config recording conf story refused
        → EachReplyLeaves (Gauge config recording) held (IsSpentAt7 monitor Nowhere (begun conf) story) }
{}
