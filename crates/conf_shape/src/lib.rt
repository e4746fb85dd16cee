//! The shape of a configuration: the keys that each of its maps has, as tables; the first fault of
//! a tree, in the order of the document; and of a tree without a fault the raw configuration.
#![tactic(auto)]

mod acls;
mod addresses;
mod copies;
mod datapaths;
mod document;
mod faults;
mod keys;
mod kinds;
pub mod laws;
mod raw;
mod reads;
mod refused;
mod routers;
mod scalars;
mod seen;
mod tables;
mod values;
mod vlans;

pub use document::shape;
pub use faults::{find_shape_fault, path_of};
pub use keys::{is_key, key_text};
pub use kinds::{DefaultValue, Kind, MapKind, Need, Scalar};
pub use raw::{
    DropFlags, OneOrList, PortFlags, RawAcl, RawAclNames, RawAcls, RawBgp, RawConf, RawDp, RawDps,
    RawField, RawFields, RawNames, RawOutput, RawPort, RawPorts, RawRouter, RawRouters, RawRule,
    RawRules, RawStackEnd, RawVlan, RawVlans, VlanRef, VlanRefs,
};
pub use reads::{as_entries, as_words, value_at};
pub use refused::{ConfCause, ConfFault, ConfRefused, LimitName};
pub use tables::{Row, Table, table_of};
