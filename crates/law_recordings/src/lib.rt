//! That it doesn't matter for a replay how a recording cuts the bytes of a connection into records. The functions are
//! empty, and their contracts are the laws.
#![tactic(auto)]

pub mod bytes;

ghost use Rattle.std.specs.Prelude.{◌≡◌, ◌++◌, ◌∷◌, [], ℕ, List, Option, None};
ghost use Rattle.fg_outside.specs.declared.hub.Happening.{Happening};
ghost use Rattle.fg_outside.specs.declared.hub.Happening.TheVariants.{Moment};
ghost use Rattle.conf_types.specs.Configuration.{Configuration};
ghost use Rattle.recording.specs.declared.kind.RecordKind.TheVariants.{Moment as OfMoment};
ghost use Rattle.recording.specs.declared.record.Record.{Record};
ghost use Rattle.recording.specs.Recording.{Records};
ghost use Rattle.recording.specs.declared.refused.RecordRefused.{RecordRefused};
ghost use Rattle.recording.specs.Script.{IsStoryOf, IsStoryOfFront, IsStorySoFar};
ghost use Rattle.recording.specs.Turns.{Closing, turns};
ghost use Rattle.hub_drive.specs.Driving.{IsFront};
ghost use Rattle.ctl_drive.specs.Replay.{WritesAll, closed_in};
ghost use Rattle.law_recordings.specs.Cuts.{SameButCuts, WritesTheSame};

/// Records tell exactly one story that fits what the controller of a configuration closes in it.
pub fn records_tell_one_story()
    ensures some { (conf : Configuration) (records : List Record) → (story : List Happening) × (story ≡ turns records (closed_in conf story)) }
    ensures one { (conf : Configuration) (records : List Record) (story other : List Happening)
        → story ≡ turns records (closed_in conf story) → other ≡ turns records (closed_in conf other) → story ≡ other }
{}

/// A record of a moment gives exactly one turn, which shows that moment, whatever the last moment was.
pub fn a_record_of_a_moment_gives_one_turn()
    ensures { (records : List Record) (r : Record) (closes : List Closing) → r.kind ≡ OfMoment → turns (records ++ r ∷ []) closes ≡ turns records closes ++ Moment r.moment ∷ [] }
{}

/// What is told of records at the front of a recording, of the last of them the moment at least, is a front of the one story of all
/// that come before its end or its first refused one.
pub fn what_is_told_so_far_is_a_front_of_the_one_story()
    ensures so_far { (conf : Configuration) (bytes : List ℕ) (story whole : List Happening) (refused : Option RecordRefused)
        → IsStoryOf bytes whole (closed_in conf whole) refused → IsStorySoFar bytes story (closed_in conf story) → IsFront story whole }
    ensures records { (conf : Configuration) (bytes : List ℕ) (story whole : List Happening) (refused : Option RecordRefused)
        → IsStoryOf bytes whole (closed_in conf whole) refused → IsStoryOfFront bytes story (closed_in conf story) → IsFront story whole }
{}

/// Of the stories of records that are the same but for where bytes are cut, the same is written.
pub fn how_records_are_cut_changes_nothing()
    ensures { (conf : Configuration) (records others : List Record) (story other : List Happening) → SameButCuts records others
        → story ≡ turns records (closed_in conf story) → other ≡ turns others (closed_in conf other) → WritesTheSame conf story other }
{}

/// Two whole recordings whose records are the same but for that have stories of which the same is written; and where both are
/// answered whole, behind the same that stood there, the same stands on standard output and on standard error.
pub fn how_recordings_are_cut_changes_nothing()
    ensures stories { (conf : Configuration) (bytes other_bytes : List ℕ) (records others : List Record) (story other : List Happening)
        → Records bytes records → Records other_bytes others → SameButCuts records others
        → IsStoryOf bytes story (closed_in conf story) None → IsStoryOf other_bytes other (closed_in conf other) None → WritesTheSame conf story other }
    ensures streams { (conf : Configuration) (bytes other_bytes : List ℕ) (records others : List Record) (story other : List Happening)
        (out_old out other_out err_old err other_err : Option (List ℕ))
        → Records bytes records → Records other_bytes others → SameButCuts records others
        → IsStoryOf bytes story (closed_in conf story) None → IsStoryOf other_bytes other (closed_in conf other) None
        → WritesAll conf story out_old out err_old err → WritesAll conf other out_old other_out err_old other_err
        → (out ≡ other_out) × (err ≡ other_err) }
{}
