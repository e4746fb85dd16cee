//! All that is right of what `replay` and `serve` answer: the laws of stories in one place. The functions are calls of these laws,
//! and their contracts name what each says.

ghost use Rattle.std.specs.Prelude.{◌≡◌, ℕ, List, Option, Some, Ok};
ghost use Rattle.fg_outside.specs.Contents.{Contents};
ghost use Rattle.fg_outside.specs.Counts.{Rose};
ghost use Rattle.fg_outside.specs.declared.hub.Happening.{Happening};
ghost use Rattle.recording.specs.declared.refused.RecordRefused.{RecordRefused};
ghost use Rattle.recording.specs.Script.{IsStoryOf, IsStorySoFar};
ghost use Rattle.recording.specs.Turns.{Closing};
ghost use Rattle.command_line.specs.declared.meaning.Job.TheVariants.{Replay};
ghost use Rattle.conf_types.specs.Configuration.{Configuration};
ghost use Rattle.conf_types.specs.Valid.{IsValid};
ghost use Rattle.conf_gather.specs.Gathered.{Held};
ghost use Rattle.hub_drive.specs.declared.drive.Drove.{Drove};
ghost use Rattle.faucet_top.specs.Answer.{Answer};
ghost use Rattle.faucet_top.specs.Given.{BreaksOff, Delivers, IsReplayed, Loads, RepliesJob};
ghost use Rattle.faucet_top.specs.Serving.{IsServed, ServesUntil};
ghost use Rattle.law_answers.specs.Answered.{IsWholeReply, serve_story};
ghost use Rattle.law_answers.specs.Whole.{IsAllRightThrough, IsDescribedThrough, IsWhole, IsWholeThrough};

use conf_load::laws::a_loaded_configuration_is_valid;
use fg_outside::{Files, Hub};
use law_lives::batches::{
    batches_are_said_exactly_where_they_are_due, each_settling_leaves_it_right,
};
use law_lives::bytes::a_recording_tells_of_bytes;
use law_lives::hosts::{
    hosts_stay_over_a_reload_but_for_a_cause, whatever_happens_hosts_stay_where_they_stand,
    whatever_is_heard_its_host_is_known,
};
use law_lives::lines::{
    a_refused_reload_says_its_line_alone, each_closing_has_its_cause,
    lines_tell_what_ends_and_what_is_refused, what_is_known_is_told,
};
use law_lives::neighbours::{
    each_answer_is_sent_once_and_nothing_else, each_ask_is_sent_once_and_nothing_else,
};
use law_lives::reloads::{
    a_reload_closes_exactly_what_is_gone, all_hosts_stay_over_a_reload_of_the_same,
};
use law_lives::sessions::each_connection_lives_as_it_is_to;
use law_lives::spans::{
    each_settling_counts_from_the_opening, what_is_said_of_a_turn_is_said_by_its_frames,
    what_is_said_of_tables_counts_from_the_opening,
};
use law_stories::laws::{
    after_each_turn_it_rests, connections_stand_by_number, whatever_happens_what_is_known_is_sound,
};
use law_stories::whatever_happens_is_right;

/// Whatever happens to a controller that begins with a valid configuration, all that any law says of a story holds of it.
pub fn all_is_right_of_every_story()
    ensures { (conf : Configuration) (story : List Happening) → IsValid conf → IsWhole conf story }
{
    whatever_happens_is_right();
    whatever_happens_what_is_known_is_sound();
    connections_stand_by_number();
    after_each_turn_it_rests();
    each_settling_leaves_it_right();
    batches_are_said_exactly_where_they_are_due();
    each_connection_lives_as_it_is_to();
    what_is_known_is_told();
    a_refused_reload_says_its_line_alone();
    lines_tell_what_ends_and_what_is_refused();
    each_closing_has_its_cause();
    what_is_said_of_a_turn_is_said_by_its_frames();
    what_is_said_of_tables_counts_from_the_opening();
    each_settling_counts_from_the_opening();
    whatever_is_heard_its_host_is_known();
    whatever_happens_hosts_stay_where_they_stand();
    hosts_stay_over_a_reload_but_for_a_cause();
    a_reload_closes_exactly_what_is_gone();
    all_hosts_stay_over_a_reload_of_the_same();
    each_ask_is_sent_once_and_nothing_else();
    each_answer_is_sent_once_and_nothing_else();
}

/// A recording is bytes, and so is all that it tells, to its end or up to a record that is refused (`whole`), and as far as it was read
/// (`so_far`). So the cold starts of each front of its story send every packet as the configuration describes, and each frame of its log
/// spells its message, with no premise left.
pub fn what_a_recording_tells_is_described(recording: &[u8])
    ensures whole { (conf : Configuration) (story : List Happening) (closes : List Closing) (refused : Option RecordRefused) → IsValid conf
        → IsStoryOf recording.now story closes refused → IsDescribedThrough conf story }
    ensures so_far { (conf : Configuration) (story : List Happening) (closes : List Closing) → IsValid conf
        → IsStorySoFar recording.now story closes → IsDescribedThrough conf story }
{
    a_recording_tells_of_bytes();
    whatever_happens_is_right();
    each_connection_lives_as_it_is_to();
}

/// Whatever `replay` answers where the files tell what they hold: of each front of the story behind its answer all is right. At
/// status 0 and 5 that is the story of `IsReplayed` (`replayed`); else, however the run ended, that of the reply which was given (`gives`).
pub fn all_is_right_of_what_replay_answers()
    ensures replayed { (config recording : List ℕ) (refused : Option RecordRefused) (held : Held) (out_old out_new err_old err_new : Option (List ℕ))
        → (is : IsReplayed config recording refused held out_old out_new err_old err_new) → IsWholeThrough is.conf is.run.story }
    ensures gives { (config recording refused : List ℕ) (held : Contents) (absences_old absences_new faults_old faults_new : ℕ) (a : Answer)
        → (reply : RepliesJob (Some (Replay config recording)) (Some held) (Rose absences_old absences_new) (Rose faults_old faults_new) refused a)
        → IsWholeReply (Some held) (Rose absences_old absences_new) (Rose faults_old faults_new) config recording reply.0 a reply.2 }
{
    all_is_right_of_every_story();
    a_loaded_configuration_is_valid();
}

/// Whatever `serve` answers where the files tell what they hold: of each front of what happened all is right, with no premise on bytes,
/// since what came is bytes, whichever hub gave it. At status 0, 6 and 7 that is what happened in `IsServed` (`served`); else, however
/// serving ended, what happened in the reply which was given (`gives`).
pub fn all_is_right_of_what_serve_answers<F: Files, H: Hub>()
    ensures served { (config : List ℕ) (held : Held) (reload_ms events : ℕ) (end : Drove) (hub_old hub_new : H) (files_old files_new : F) (out_old out_new err_old err_new : Option (List ℕ))
        → (is : IsServed H.may F.contents F.faults config held reload_ms events end hub_old hub_new files_old files_new out_old out_new err_old err_new)
        → IsAllRightThrough is.conf is.happened }
    ensures gives { (config text refused : List ℕ) (held : Contents) (absences_old absences_new faults_old faults_new : ℕ) (reload_ms events : ℕ) (conf : Configuration)
        (hub_old hub_new : H) (files_old files_new : F) (status : ℕ) (o0 o1 e0 e1 : Option (List ℕ)) (m0 m1 n0 n1 : ℕ) (end : Drove)
        → F.contents files_old ≡ Some held
        → Loads (F.contents files_old) (Rose absences_old absences_new) (Rose faults_old faults_new) refused config (Ok conf)
        → (ran : ServesUntil H.may F.contents F.faults config text reload_ms events conf hub_old hub_new files_old files_new
        (λ a. Delivers a status o0 o1 e0 e1 m0 m1 n0 n1) (λ a. BreaksOff a status o0 o1 e0 e1 m0 m1 n0 n1) end)
        → IsAllRightThrough conf (serve_story H.may F.contents F.faults config text reload_ms events conf hub_old hub_new files_old files_new
        (λ a. Delivers a status o0 o1 e0 e1 m0 m1 n0 n1) (λ a. BreaksOff a status o0 o1 e0 e1 m0 m1 n0 n1) end ran) }
{
    all_is_right_of_every_story();
    a_loaded_configuration_is_valid();
}
