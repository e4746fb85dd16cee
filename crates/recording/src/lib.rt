//! Recordings: what happened to a controller, record by record, as bytes; the hub that reads them,
//! and the records that a replay writes.
#![tactic(auto)]

mod conns;
mod grow;
mod header;
mod kind;
pub mod laws;
mod own;
mod put;
mod reader;
mod record;
mod refused;
mod script_hub;
mod written;

pub use conns::Conns;
pub use kind::RecordKind;
pub use put::{put_closed, put_read, put_record, put_sent};
pub use record::Record;
pub use refused::{RecordCause, RecordRefused};
pub use script_hub::ScriptHub;
pub use written::SwitchError;
