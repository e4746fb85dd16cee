//! The check of a configuration: of a text or a tree the accepted configuration, or the first place
//! where it is wrong.
#![tactic(auto)]

mod checking;
pub mod laws;
mod rules;
mod text;

pub use checking::{check, conf_of_tree};
pub use rules::find_broken_rule;
pub use text::{TextRefused, conf_of_bytes};
