ghost use Rattle.std.specs.Prelude.{◌≡◌, [], OnOk, OnErr};
ghost use Rattle.recording.specs.Conns.{is_among, without, with_one};

use crate::kind::RecordKind;
use net_base::NoMemory;
use std::alloc::Global;
use std::collections::BTreeSet;
use std::marker::Model;

/// Connections, by their numbers, which ascend. Each is found without a walk over the others.
#[derive(Debug, Drop)]
pub struct Conns {
    conns: BTreeSet<u32>,
}

impl Model for Conns {
    ghost use Rattle.std.specs.Prelude.{List, ℕ};

    ghost Value = { List ℕ };

    ghost view = { λ it. it.conns.keys };
}

impl Conns {
    ghost use Rattle.recording.specs.Conns.{open_after, is_conn};

    /// None.
    pub fn new(alloc: Global) -> Conns
        ensures { result ≡ [] }
    {
        Conns {
            conns: BTreeSet::new(alloc),
        }
    }

    /// Whether this connection is one of them.
    pub fn has(&self, conn: u32) -> bool
        ensures { result ≡ is_among self.now conn }
    {
        self.conns.contains(&conn)
    }

    /// One more, at its place, unless it is one of them. After `NoMemory` they are as they were.
    pub fn add(&mut self, conn: u32) -> Result<(), NoMemory>
        ensures ok { OnOk result (self.new ≡ with_one self.old conn) }
        ensures err { OnErr result (self.new ≡ self.old) }
    {
        self.conns.insert(conn)?;
        Ok(())
    }

    /// Takes the connection out, where it is one of them.
    pub fn remove(&mut self, conn: u32)
        ensures { self.new ≡ without self.old conn }
    {
        // This call alone tells that they ascend.
        let _len = self.conns.len();
        self.conns.remove(&conn);
    }

    /// Whether a record of this kind may name this connection, where these are open.
    pub fn may_be_named(&self, kind: RecordKind, conn: u32) -> bool
        ensures { result ≡ is_conn kind conn self.now }
    {
        match kind {
            RecordKind::Open => !self.has(conn),
            RecordKind::Bytes | RecordKind::Close => self.has(conn),
            RecordKind::Reload | RecordKind::Moment => conn == 0,
        }
    }

    /// The connections that are open behind a record of this kind. After `NoMemory` they are as
    /// they were.
    pub fn go_on(&mut self, kind: RecordKind, conn: u32) -> Result<(), NoMemory>
        ensures ok { OnOk result (self.new ≡ open_after kind conn self.old) }
        ensures err { OnErr result (self.new ≡ self.old) }
    {
        match kind {
            RecordKind::Open => self.add(conn),
            RecordKind::Close => {
                self.remove(conn);
                Ok(())
            }
            RecordKind::Bytes | RecordKind::Reload | RecordKind::Moment => Ok(()),
        }
    }
}
