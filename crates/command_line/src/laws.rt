//! Laws of the definitions: each function is empty, and its contract is the law.

ghost use Rattle.std.specs.Prelude.{◌≡◌, List, ℕ, Some, IsTrue};
ghost use Rattle.command_line.specs.declared.meaning.Job.{Job};
ghost use Rattle.command_line.specs.declared.parts.Parts.{Parts};
ghost use Rattle.command_line.specs.declared.recorded.RecordedServe.{RecordedServe};
ghost use Rattle.command_line.specs.Asked.{StandOnce, AskFor, AskToRecord};
ghost use Rattle.command_line.specs.Meaning.{meaning};
ghost use Rattle.command_line.specs.Parts.{have_distinct_names, parts_of};
ghost use Rattle.command_line.specs.Recorded.{recorded_meaning};
ghost use Rattle.command_line.specs.Written.{Written};

/// Words have parts exactly where the parts are written by them (`Written`) and no name stands twice. So no
/// words can be read in two ways.
pub fn parts_are_what_is_written()
    ensures parted { (words : List (List ℕ)) (parts : Parts) → parts_of words ≡ Some parts
        → Written words parts.plain parts.options × IsTrue (have_distinct_names parts.options) }
    ensures written { (words : List (List ℕ)) (parts : Parts) → Written words parts.plain parts.options
        → IsTrue (have_distinct_names parts.options) → parts_of words ≡ Some parts }
{}

/// Words have parts exactly where the parts are written by them (`Written`) and options at two places have two
/// names (`StandOnce`): an option stands at most once.
pub fn an_option_stands_at_most_once()
    ensures once { (words : List (List ℕ)) (parts : Parts) → parts_of words ≡ Some parts
        → Written words parts.plain parts.options × StandOnce parts.options }
    ensures parted { (words : List (List ℕ)) (parts : Parts) → Written words parts.plain parts.options
        → StandOnce parts.options → parts_of words ≡ Some parts }
{}

/// Words ask for a job exactly where they are the name of a command, the plain words that it takes, and in any
/// order its options, each at most once; and what is asked for is what stands behind each option's name, or the
/// default of one that doesn't stand there (`AskFor`).
pub fn words_ask_for_what_is_written()
    ensures asked { (words : List (List ℕ)) (job : Job) → meaning words ≡ Some job → AskFor words job }
    ensures meant { (words : List (List ℕ)) (job : Job) → AskFor words job → meaning words ≡ Some job }
{}

/// The same of the words of `faucet_recorded` (`AskToRecord`).
pub fn recorded_words_ask_for_what_is_written()
    ensures asked { (words : List (List ℕ)) (job : RecordedServe) → recorded_meaning words ≡ Some job → AskToRecord words job }
    ensures meant { (words : List (List ℕ)) (job : RecordedServe) → AskToRecord words job → recorded_meaning words ≡ Some job }
{}
