//! The outside of the controller: files, sources, sinks and hubs, as traits with what they tell.
#![tactic(auto)]

mod copy;
mod fault;
mod fault_plan;
mod file_source;
mod files;
mod held;
mod hub;
pub mod laws;
mod line;
mod mem_files;
mod mem_sink;
mod mem_source;
mod no_hub;
mod refused_name;
mod sink;
mod source;

pub use fault::Failed;
pub use fault_plan::{CallNos, FailListed, FailNever, FaultPlan};
pub use file_source::FileSource;
pub use files::{Files, ReadRefused, read_whole};
pub use held::{Folder, Folders, HeldFile, HeldFiles};
pub use hub::{EndCause, Happening, Happenings, Hub, Said, Turn};
pub use line::write_line;
pub use mem_files::{FilesInMemory, MemFiles, SureFiles};
pub use mem_sink::{MemSink, SinkInMemory, SureSink};
pub use mem_source::{MemSource, SourceInMemory, SureSource};
pub use no_hub::NoHub;
pub use refused_name::RefusedName;
pub use sink::{Sink, write_all};
pub use source::Source;
