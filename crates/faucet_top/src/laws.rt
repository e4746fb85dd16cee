//! Laws of the definitions: a function's contract is the law, and its body is at most a call of
//! the laws that it rests on.

ghost use Rattle.std.specs.Prelude.{◌≡◌, ℕ, Option, Some, List};
ghost use Rattle.fg_outside.specs.Contents.{Contents};
ghost use Rattle.fg_outside.specs.Counts.{Rose};
ghost use Rattle.command_line.specs.declared.meaning.Job.{Job};
ghost use Rattle.conf_load.specs.Loaded.{loaded};
ghost use Rattle.faucet_top.specs.Answer.{Answer, job_answer};
ghost use Rattle.faucet_top.specs.Given.{AnswersSoFar, Replies};

/// Where the files tell what they hold, a reply to `check`, to `plan` or to no job is the answer; or it writes a front of it on
/// standard output, and memory ran out or a read failed. So where nothing failed, and the status isn't 8, all is
/// as the answer says, and whatever fails no byte is written that isn't of the answer.
pub fn what_is_replied_is_the_answer()
    ensures { (job : Option Job) (held : Contents) (absences_old absences_new faults_old faults_new : ℕ) (refused : List ℕ) (a whole : Answer)
        → job_answer job (loaded (held 0)) ≡ Some whole
        → Replies job (Some held) (Rose absences_old absences_new) (Rose faults_old faults_new) refused a
        → AnswersSoFar a whole (Rose faults_old faults_new) }
{}
