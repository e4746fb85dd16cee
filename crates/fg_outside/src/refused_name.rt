//! The name of the file that a read last refused, for contracts alone.
ghost use Rattle.std.specs.Prelude.{◌≡◌, ℕ, List};
ghost use Rattle.std.specs.Borrow.{ftrue};

use std::fmt;
use std::marker::Model;

/// The name of the file at which a read last failed, or found none. A clause reads it as `name`; it
/// takes no memory, and does nothing at run time.
#[derive(Drop)]
pub struct RefusedName {
    pub ghost name: { List ℕ },
}

impl Model for RefusedName {
    ghost also_owns = { λ _. ftrue };
}

impl RefusedName {
    /// This name.
    pub fn of(_name: &&str) -> RefusedName
        ensures { result.name ≡ _name.now.now }
    {
        RefusedName {}
    }
}

impl fmt::Debug for RefusedName {
    fn fmt<W: fmt::Write>(&self, f: &mut fmt::Formatter<W>) -> fmt::Result {
        f.write_str("RefusedName")
    }
}
