ghost use Rattle.std.specs.Prelude.{◌≡◌};
ghost use Rattle.acl_compile.specs.Places.{table_at, next_at, field_at};

use net_base::{Field, PortNo, Vid};
use plan_base::{Table, in_port, vid_field};

/// Where ACLs are attached.
#[derive(Drop)]
pub enum Place {
    AtPort(PortNo),
    AtVlan(Vid),
}

impl Place {
    /// The table of the rules.
    pub(crate) fn table(&self) -> Table
        ensures { result ≡ table_at self.now }
    {
        match self {
            Place::AtPort(_) => Table::PortAcl,
            Place::AtVlan(_) => Table::VlanAcl,
        }
    }

    /// Where the packets that a rule allows go on.
    pub(crate) fn next(&self) -> Table
        ensures { result ≡ next_at self.now }
    {
        match self {
            Place::AtPort(_) => Table::Admission,
            Place::AtVlan(_) => Table::Source,
        }
    }

    /// What all packets that come there have.
    pub(crate) fn field(&self) -> Field
        ensures { result ≡ field_at self.now }
    {
        match self {
            Place::AtPort(port) => in_port(*port),
            Place::AtVlan(vid) => vid_field(*vid),
        }
    }
}
