//! Where in a story a thing is said: behind which frame, and since which opening of its connection. The functions are empty but for
//! calls of the laws that they rest on, and their contracts are the laws.

ghost use Rattle.std.specs.Prelude.{◌≡◌, ℕ, List, []};
ghost use Rattle.std.specs.List.{AllByRecursion};
ghost use Rattle.fg_outside.specs.declared.hub.Happening.{Happening};
ghost use Rattle.conf_types.specs.Configuration.{Configuration};
ghost use Rattle.ctl_world.specs.TablesSaid.{tables_said};
ghost use Rattle.ctl_world.specs.World.{first};
ghost use Rattle.law_stories.specs.Settlings.{said_in};
ghost use Rattle.law_lives.specs.Steps.{turns};
ghost use Rattle.law_lives.specs.Told.{as_told};
ghost use Rattle.law_lives.specs.Frames.{SpeaksByItsFrames};
ghost use Rattle.law_lives.specs.Since.{CountAlike, tables_since};

/// Whatever happens, what is said in a turn in which bytes are heard is said of the frames in them, one behind the other: of each up
/// to the next one, where each closing has its cause in its own frame, and what was said of the frames before stands before it. The
/// first frame that is refused closes the connection on which it came, and behind a closing of that none is heard.
pub fn what_is_said_of_a_turn_is_said_by_its_frames()
    ensures { (conf : Configuration) (story : List Happening) → AllByRecursion SpeaksByItsFrames (turns (first conf) story) }
{}

/// Whatever happens, what was said of a switch's tables since the last HELLO on its connection is what was said of them since the
/// last Opened that found the connection not open.
pub fn what_is_said_of_tables_counts_from_the_opening()
    ensures { (conf : Configuration) (story : List Happening) (number : ℕ) → tables_said number (said_in (first conf) story) ≡ tables_since number (as_told (first conf) story) }
{}

/// So it is within turns too: just before each settling, and at its end.
pub fn each_settling_counts_from_the_opening()
    ensures { (conf : Configuration) (story : List Happening) → CountAlike [] [] (first conf) story }
{}
