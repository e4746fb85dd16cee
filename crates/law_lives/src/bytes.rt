//! That what a recording tells is bytes where it is, by which the law on descriptions has no premise left for whoever has it.

ghost use Rattle.std.specs.Prelude.{◌<◌, ℕ, List};
ghost use Rattle.std.specs.List.{AllByRecursion};
ghost use Rattle.recording.specs.declared.record.Record.{Record};
ghost use Rattle.recording.specs.Recording.{Records};
ghost use Rattle.recording.specs.Turns.{Closing, turns};
ghost use Rattle.law_stories.specs.Right.{IsOfBytes};

/// A recording that is bytes tells of bytes, whatever the controller closes in it.
pub fn a_recording_tells_of_bytes()
    ensures { (bytes : List ℕ) (records : List Record) (closes : List Closing) → AllByRecursion (λ byte. byte < 256) bytes → Records bytes records
        → AllByRecursion IsOfBytes (turns records closes) }
{}
