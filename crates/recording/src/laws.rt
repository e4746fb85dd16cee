//! What the definitions of this crate come to, in the words of recordings and stories.
ghost use Rattle.std.specs.Prelude.{◌≡◌, ◌⊎◌, ◌++◌, ◌∷◌, ℕ, List, [], Option, Some, None};
ghost use Rattle.fg_outside.specs.HubStep.{HubStep, happening, happenings, turned, Leads, story};
ghost use Rattle.fg_outside.specs.Steps.{Went};
ghost use Rattle.fg_outside.specs.declared.hub.Happening.{Happening};
ghost use Rattle.fg_outside.specs.declared.hub.Turn.TheVariants.{Happened, Done, Failed};
ghost use Rattle.recording.specs.declared.record.Record.{Record};
ghost use Rattle.recording.specs.declared.script_hub.ScriptHub.{ScriptHub};
ghost use Rattle.recording.specs.declared.refused.RecordCause.{RecordCause};
ghost use Rattle.recording.specs.Layout.{HasLayout};
ghost use Rattle.recording.specs.Recording.{Records};
ghost use Rattle.recording.specs.Refused.{IsRefused};
ghost use Rattle.recording.specs.Turns.{closings};
ghost use Rattle.recording.specs.Written.{kind_number, body_of, WrittenRecord, written, written_records, IsWritable, AreWritable};
ghost use Rattle.recording.specs.Script.{source_in, refusal_in, StandsFor, IsStoryOf, IsStoryOfFront, IsStorySoFar, IsReadAndTold, IsReadBehind, IsReadInside};

use crate::ScriptHub;
use fg_outside::{Hub, Source};

/// Whichever way a hub goes that begins to read, it stands for records at the front of the
/// recording, and for the story of that way.
pub fn a_way_tells_records<S: Source>()
    ensures { (whole : Option (List ℕ)) (from to : ScriptHub S) (steps : List HubStep)
        → StandsFor S.left whole from [] None []
        → Leads ⟦<ScriptHub<S> as Hub>⟧.may from steps to
        → (records : List Record) × (waits : Option Record) × StandsFor S.left whole to records waits (story steps) }
{}

/// Whichever way a hub goes, its source went by calls, in steps that it may take.
pub fn along_a_way_the_source_goes_by_its_steps<S: Source>()
    ensures { (from to : ScriptHub S) (steps : List HubStep)
        → Leads ⟦<ScriptHub<S> as Hub>⟧.may from steps to
        → Went S.may (source_in from) (source_in to) }
{}

/// Wherever a hub stops that began to read, the happenings of its story are the turns of records at
/// the front of the recording and of the closings in that story, and then the moment of the record
/// that waits.
pub fn a_stopped_story_is_the_turns_of_a_front<S: Source>()
    ensures { (bytes : List ℕ) (from to : ScriptHub S) (steps : List HubStep)
        → StandsFor S.left (Some bytes) from [] None []
        → Leads ⟦<ScriptHub<S> as Hub>⟧.may from steps to
        → IsStorySoFar bytes (happenings (story steps)) (closings 0 (story steps)) }
{}

/// Where the turn failed, the happenings of the story are the turns of all records at the front of the recording, the moment and
/// the own of each, and of the closings in that story: of the record that was being read nothing was told.
pub fn a_failed_story_is_the_turns_of_the_records_before<S: Source>()
    ensures { (bytes : List ℕ) (from to after : ScriptHub S) (steps : List HubStep)
        → StandsFor S.left (Some bytes) from [] None []
        → Leads ⟦<ScriptHub<S> as Hub>⟧.may from steps to
        → ⟦<ScriptHub<S> as Hub>⟧.may to (turned Failed) after
        → IsStoryOfFront bytes (happenings (story steps)) (closings 0 (story steps)) }
{}

/// Once the turn is `Done`, the happenings of the story are the turns of the recording's accepted
/// records and of the closings in that story: of all records, or of those before the refused one.
pub fn a_done_story_is_the_turns_of_its_records<S: Source>()
    ensures { (bytes : List ℕ) (from to after : ScriptHub S) (steps : List HubStep)
        → StandsFor S.left (Some bytes) from [] None []
        → Leads ⟦<ScriptHub<S> as Hub>⟧.may from steps to
        → ⟦<ScriptHub<S> as Hub>⟧.may to (turned Done) after
        → IsStoryOf bytes (happenings (story steps)) (closings 0 (story steps)) (refusal_in after) }
{}

/// Behind a turn that gave a happening, the source has left exactly the bytes behind the records
/// that were read.
pub fn no_byte_is_read_past_a_record<S: Source>()
    ensures { (bytes : List ℕ) (from to after : ScriptHub S) (steps : List HubStep) (it : Happening)
        → StandsFor S.left (Some bytes) from [] None []
        → Leads ⟦<ScriptHub<S> as Hub>⟧.may from steps to
        → ⟦<ScriptHub<S> as Hub>⟧.may to (turned (Happened it)) after
        → IsReadBehind bytes (S.left (source_in after)) }
{}

/// A record tells its own before the next is read: behind a turn that gave a happening, all records that were read told theirs,
/// but for the last, of which the moment may be all that was told.
pub fn a_record_tells_its_own_before_the_next_is_read<S: Source>()
    ensures { (bytes : List ℕ) (from to after : ScriptHub S) (steps : List HubStep) (it : Happening)
        → StandsFor S.left (Some bytes) from [] None []
        → Leads ⟦<ScriptHub<S> as Hub>⟧.may from steps to
        → ⟦<ScriptHub<S> as Hub>⟧.may to (turned (Happened it)) after
        → IsReadAndTold bytes (story steps ++ happening it ∷ []) (S.left (source_in after)) }
{}

/// Behind a turn that failed, at most a part of the next record was taken too.
pub fn a_failed_read_stays_in_its_record<S: Source>()
    ensures { (bytes : List ℕ) (from to after : ScriptHub S) (steps : List HubStep)
        → StandsFor S.left (Some bytes) from [] None []
        → Leads ⟦<ScriptHub<S> as Hub>⟧.may from steps to
        → ⟦<ScriptHub<S> as Hub>⟧.may to (turned Failed) after
        → IsReadInside bytes (S.left (source_in after)) }
{}

/// Bytes are a recording of some records, or have a first record that is refused.
pub fn bytes_have_records_or_a_first_refused_one()
    ensures { (bytes : List ℕ) → ((records : List Record) × Records bytes records)
        ⊎ ((records : List Record) × (number : ℕ) × (cause : RecordCause) × IsRefused bytes records number cause) }
{}

/// They are not both.
pub fn a_recording_has_no_refused_record()
    ensures { (bytes : List ℕ) (records others : List Record) (number : ℕ) (cause : RecordCause)
        → Records bytes records → IsRefused bytes others number cause → ⊥ }
{}

/// Bytes are a recording of one list of records at most.
pub fn the_records_of_bytes_are_one_list()
    ensures { (bytes : List ℕ) (records others : List Record)
        → Records bytes records → Records bytes others → records ≡ others }
{}

/// The records of a front are a front of the records.
pub fn records_of_a_front_are_a_front()
    ensures { (front more : List ℕ) (first records : List Record)
        → Records front first → Records (front ++ more) records → (rest : List Record) × (records ≡ first ++ rest) }
{}

/// A written record has the layout of one that is read.
pub fn a_written_record_has_the_layout_of_a_read_one()
    ensures { (r : WrittenRecord) → IsWritable r
        → HasLayout r.moment (kind_number r.told) r.conn (body_of r.told) (written r) }
{}

/// Different lists of written records have different bytes.
pub fn written_records_are_told_apart()
    ensures { (records others : List WrittenRecord) → AreWritable records → AreWritable others
        → written_records records ≡ written_records others → records ≡ others }
{}
