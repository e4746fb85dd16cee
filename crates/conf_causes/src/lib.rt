//! The names of what can be wrong with a configuration, as they stand in lines.
#![tactic(auto)]

mod causes;

pub use causes::{limit_name, put_fault};
