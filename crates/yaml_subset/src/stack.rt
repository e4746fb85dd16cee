//! The blocks that are open while a text is read.

ghost use Rattle.std.specs.Prelude.{◌≡◌, ◌==◌, [], ◌∷◌, length, MatchOption, OnOk, IfOk};
ghost use Rattle.yaml_subset.specs.Blocks.{is_list, closed, takes_block, top_is, ends_block};

use crate::entries::Entries;
use net_base::{Items, NoMemory};
use std::alloc::Global;
use std::marker::Model;
use yaml_tree::{Key, Tree};

/// A block without the value of its last entry.
#[derive(Debug, Drop)]
pub enum Open {
    /// The items before the last one.
    List(Items<Tree>),
    /// The entries before the last one, and the last one's key.
    Map(Entries, Key),
}

/// A block and its indent.
#[derive(Debug, Drop)]
pub struct Frame {
    pub indent: usize,
    pub open_block: Open,
}

/// The open blocks, which contracts see as a list, innermost first.
#[derive(Debug, Drop)]
pub struct Stack {
    frames: Vec<Frame>,
}

impl Model for Stack {
    ghost use Rattle.std.specs.Prelude.{List, reverse};
    ghost use Rattle.yaml_subset.specs.declared.stack.Frame.{Frame};
    ghost use Rattle.std.specs.Coded.{coded_list};
    ghost use Rattle.yaml_subset.specs.contracts.stack.Frame as frame;

    ghost Value = { List Frame };

    ghost coded = { coded_list frame.the_row.coded };

    ghost view = { λ s. reverse s.frames.items };
}

impl Stack {
    /// No open block.
    pub fn new(alloc: Global) -> Stack
        ensures { result ≡ [] }
    {
        Stack {
            frames: Vec::new(alloc),
        }
    }

    /// How many blocks are open.
    pub fn len(&self) -> usize
        ensures { result ≡ length self.now }
    {
        self.frames.len()
    }

    /// Opens a block within the innermost one.
    pub fn push(&mut self, frame: Frame) -> Result<(), NoMemory>
        ensures { OnOk result (self.new ≡ frame ∷ self.old) }
    {
        self.frames.push(frame)?;
        Ok(())
    }

    /// Takes the innermost block out.
    pub fn pop(&mut self) -> Option<Frame>
        ensures { MatchOption result ((self.old ≡ []) × (self.new ≡ [])) (λ f. self.old ≡ f ∷ self.new) }
    {
        self.frames.pop()
    }

    /// Whether a line at this indent begins a block under the innermost block's last entry, where
    /// that has no value yet.
    pub fn takes_block(&self, indent: usize, item: bool) -> bool
        ensures { result ≡ takes_block self.now indent item }
    {
        match self.frames.last() {
            None => false,
            Some(frame) => {
                let is_map = matches!(frame.open_block, Open::Map(_, _));
                frame.indent < indent || frame.indent == indent && is_map && item
            }
        }
    }

    /// Whether the innermost block has this indent.
    pub fn top_is(&self, indent: usize) -> bool
        ensures { result ≡ top_is indent self.now }
    {
        match self.frames.last() {
            None => false,
            Some(frame) => frame.indent == indent,
        }
    }
}
