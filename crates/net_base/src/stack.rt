ghost use Rattle.std.specs.Prelude.{◌≡◌};

use crate::items::Items;
use crate::numbers::{DpId, PortNo};
use crate::try_copy::{NoMemory, TryCopy};
use std::alloc::Global;

/// A datapath of a stack, with its priority where it has one (the least one is the root's).
#[derive(Clone, Copy, Debug, PartialEq, Eq)]
pub struct Node {
    pub id: DpId,
    pub priority: Option<u32>,
}

/// A stack link between two ports of two datapaths.
#[derive(Clone, Copy, Debug, PartialEq, Eq)]
pub struct StackLink {
    pub a: DpId,
    pub a_port: PortNo,
    pub b: DpId,
    pub b_port: PortNo,
}

/// A list of datapaths of a stack.
pub type Nodes = Items<Node>;

/// A list of stack links.
pub type StackLinks = Items<StackLink>;

impl TryCopy for Node {
    fn copy(&self, _alloc: Global) -> Result<Node, NoMemory> {
        Ok(*self)
    }
}

impl TryCopy for StackLink {
    fn copy(&self, _alloc: Global) -> Result<StackLink, NoMemory> {
        Ok(*self)
    }
}
