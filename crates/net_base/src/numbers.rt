ghost use Rattle.std.specs.Prelude.{◌≡◌, ◌<◌, ◌≤◌, ◌^◌, ◌↔◌, IsSome, IfSome};
ghost use Rattle.net_base.specs.Numbers.{IsVid, IsPortNo};

use crate::try_copy::{NoMemory, TryCopy};
use std::alloc::Global;
use std::marker::Model;

/// A VLAN identifier, 1 to 4094 (IEEE 802.1Q, 9.6: 0 is a priority tag, 4095 is reserved).
/// Contracts see the number.
#[derive(Clone, Copy, Debug, PartialEq, Eq, PartialOrd, Ord, Hash)]
pub struct Vid {
    vid: u16,
}

impl Model for Vid {
    ghost use Rattle.std.specs.Prelude.{ℕ};
    ghost use Rattle.net_base.specs.Numbers.{IsVid};

    ghost Value = { ℕ };

    ghost view = { λ v. v.vid };

    ghost invariant = { λ v. IsVid v.vid };

    ghost inverse = { λ n. record { vid = n } };
}

impl Vid {
    /// The identifier with this number; `None` exactly outside 1 to 4094.
    pub fn new(n: u16) -> Option<Vid>
        ensures range { IsSome result ↔ IsVid n }
        ensures value { IfSome result (λ v. v ≡ n) }
    {
        if 1 <= n && n <= 4094 {
            Some(Vid { vid: n })
        } else {
            None
        }
    }

    /// The number.
    pub fn get(self) -> u16
        ensures value { result ≡ self }
        ensures range { IsVid self }
    {
        self.vid
    }
}

impl TryCopy for Vid {
    fn copy(&self, _alloc: Global) -> Result<Vid, NoMemory> {
        Ok(*self)
    }
}

/// The number of a switch's port, 1 to 0xffffff00 (OpenFlow 1.3, 7.2.1: the numbers above are
/// reserved). Contracts see the number.
#[derive(Clone, Copy, Debug, PartialEq, Eq, PartialOrd, Ord, Hash)]
pub struct PortNo {
    no: u32,
}

impl Model for PortNo {
    ghost use Rattle.std.specs.Prelude.{ℕ};
    ghost use Rattle.net_base.specs.Numbers.{IsPortNo};

    ghost Value = { ℕ };

    ghost view = { λ p. p.no };

    ghost invariant = { λ p. IsPortNo p.no };

    ghost inverse = { λ n. record { no = n } };
}

impl PortNo {
    /// The port with this number; `None` exactly outside 1 to 0xffffff00.
    pub fn new(n: u32) -> Option<PortNo>
        ensures range { IsSome result ↔ IsPortNo n }
        ensures value { IfSome result (λ p. p ≡ n) }
    {
        if 1 <= n && n <= 0xffff_ff00 {
            Some(PortNo { no: n })
        } else {
            None
        }
    }

    /// The number.
    pub fn get(self) -> u32
        ensures value { result ≡ self }
        ensures range { IsPortNo self }
    {
        self.no
    }
}

impl TryCopy for PortNo {
    fn copy(&self, _alloc: Global) -> Result<PortNo, NoMemory> {
        Ok(*self)
    }
}

/// The identifier of a datapath, one switch (OpenFlow 1.3, 7.3.1).
#[derive(Clone, Copy, Debug, PartialEq, Eq, PartialOrd, Ord, Hash)]
pub struct DpId(pub u64);

impl TryCopy for DpId {
    fn copy(&self, _alloc: Global) -> Result<DpId, NoMemory> {
        Ok(*self)
    }
}

/// A moment, in milliseconds since the controller's own beginning.
#[derive(Clone, Copy, Debug, PartialEq, Eq, PartialOrd, Ord, Hash)]
pub struct Moment(pub u64);

impl TryCopy for Moment {
    fn copy(&self, _alloc: Global) -> Result<Moment, NoMemory> {
        Ok(*self)
    }
}
