//! What the definitions of this crate come to, in the words of files, counts and hubs.
ghost use Rattle.std.specs.Prelude.{◌≡◌, ◌≢◌, ◌⊎◌, ℕ, ◌-◌, ◌^◌, ◌<◌, List, [], ◌∷◌, ◌++◌, Some, None, All};
ghost use Rattle.fg_outside.specs.declared.held.HeldFile.{HeldFile};
ghost use Rattle.fg_outside.specs.declared.held.Folder.{Folder};
ghost use Rattle.fg_outside.specs.declared.file_source.FileSource.{FileSource};
ghost use Rattle.fg_outside.specs.declared.no_hub.NoHub.{NoHub};
ghost use Rattle.fg_outside.specs.Counts.{Rose};
ghost use Rattle.fg_outside.specs.Contents.{Tells, refreshed};
ghost use Rattle.fg_outside.specs.FileSource.{files_of, name_of, missing_of, faults_of, KeepsFiles};
ghost use Rattle.fg_outside.specs.Folders.{file_named, contents_of};
ghost use Rattle.fg_outside.specs.HubStep.{HubStep, Leads, story};
ghost use Rattle.fg_outside.specs.NoHub.{IsIdle};
ghost use Rattle.fg_outside.specs.Steps.{Went};

use crate::{FileSource, Files, Hub, NoHub, Source};

/// A count that rose is greater than it was, unless it stood at its last value.
pub fn a_count_that_rose_grew()
    ensures { (before now : ℕ) → before < 2 ^ 64 - 1 → Rose before now → before < now }
{}

/// Of the files of one name the first counts.
pub fn the_first_of_a_name_counts()
    ensures { (file : HeldFile) (rest : List HeldFile) → file_named (file ∷ rest) file.name ≡ Some file.bytes }
{}

/// A file of another name is passed over.
pub fn another_name_is_passed_over()
    ensures { (file : HeldFile) (rest : List HeldFile) (name : List ℕ)
        → file.name ≢ name → file_named (file ∷ rest) name ≡ file_named rest name }
{}

/// With no folder no file is there.
pub fn with_no_folder_no_file_is_there()
    ensures { (later : ℕ) (name : List ℕ) → contents_of [] later name ≡ None }
{}

/// The first folder is there at first.
pub fn the_first_folder_is_there_first()
    ensures { (first : Folder) (rest : List Folder) (name : List ℕ)
        → contents_of (first ∷ rest) 0 name ≡ file_named first.held name }
{}

/// A refresh goes on to the next folder.
pub fn a_refresh_goes_on()
    ensures { (first next : Folder) (rest : List Folder)
        → refreshed (Some (contents_of (first ∷ next ∷ rest))) ≡ Some (contents_of (next ∷ rest)) }
{}

/// The last folder stays.
pub fn the_last_folder_stays()
    ensures { (last : Folder)
        → refreshed (Some (contents_of (last ∷ []))) ≡ Some (contents_of (last ∷ [])) }
{}

/// Where calls took a source to a state and on from there, they took it all the way.
pub fn calls_in_turn_are_calls<S: Source>()
    ensures { (from mid to : S) → Went S.may from mid → Went S.may mid to → Went S.may from to }
{}

/// A source that no call was made of keeps its files.
pub fn an_uncalled_source_keeps_its_files<F: Files>()
    ensures { (source : FileSource F) → KeepsFiles F.contents F.faults F.absences F.refused source source }
{}

/// A source that keeps its files twice in turn keeps them all the way.
pub fn files_kept_in_turn_are_kept<F: Files>()
    ensures { (old mid new : FileSource F) → KeepsFiles F.contents F.faults F.absences F.refused old mid
        → KeepsFiles F.contents F.faults F.absences F.refused mid new → KeepsFiles F.contents F.faults F.absences F.refused old new }
{}

/// Whatever calls were made of a source, it keeps its files from the first to the last.
pub fn calls_keep_the_files<F: Files>()
    ensures { (from to : FileSource F) → Went ⟦<FileSource<F> as Source>⟧.may from to
        → KeepsFiles F.contents F.faults F.absences F.refused from to }
{}

/// Where the faults of a source rose that hadn't missed its file, the faults or the absences of its
/// files rose.
pub fn a_fault_is_one_of_the_files<F: Files>()
    ensures { (old new : FileSource F) → missing_of old ≡ 0 → KeepsFiles F.contents F.faults F.absences F.refused old new
        → Rose (faults_of F.faults old) (faults_of F.faults new)
        → Rose (F.faults (files_of old)) (F.faults (files_of new)) ⊎ Rose (F.absences (files_of old)) (F.absences (files_of new)) }
{}

/// Where the faults of a source rose whose file is told, and that hadn't missed it, the faults of its files
/// rose.
pub fn a_fault_of_a_told_file_is_one_of_reading<F: Files>()
    ensures { (old new : FileSource F) (file : List ℕ) → missing_of old ≡ 0 → Tells (F.contents (files_of old)) (name_of old) (Some file)
        → KeepsFiles F.contents F.faults F.absences F.refused old new → Rose (faults_of F.faults old) (faults_of F.faults new)
        → Rose (F.faults (files_of old)) (F.faults (files_of new)) }
{}

/// Where the faults of a source grew, the name at which its files last refused a read is that of its file.
pub fn a_fault_is_named_by_the_file<F: Files>()
    ensures { (old new : FileSource F) → KeepsFiles F.contents F.faults F.absences F.refused old new
        → faults_of F.faults old < faults_of F.faults new → F.refused (files_of new) ≡ name_of new }
{}

/// Where one way leads to a hub and another leads on from it, both lead there one behind the other.
pub fn ways_join<H: Hub>()
    ensures { (from mid to : H) (first second : List HubStep)
        → Leads H.may from first mid → Leads H.may mid second to → Leads H.may from (first ++ second) to }
{}

/// The story of two ways is their stories one behind the other.
pub fn stories_join()
    ensures { (first second : List HubStep) → story (first ++ second) ≡ story first ++ story second }
{}

/// With no hub each turn is done and each connection is gone.
pub fn with_no_hub_nothing_happens()
    ensures { (from to : NoHub) (steps : List HubStep)
        → Leads ⟦<NoHub as Hub>⟧.may from steps to → All IsIdle steps }
{}
