//! The real outside: the words of the program's arguments, the system's files, and streams and new files as
//! sinks.
#![tactic(auto)]

mod new_file;
mod opened;
mod real_files;
mod stream;
mod words;

pub use new_file::NewFile;
pub use real_files::RealFiles;
pub use stream::Stream;
pub use words::words_of;
