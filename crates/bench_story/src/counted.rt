//! What is counted of what a controller says, and what a switch owes for it.

ghost use Rattle.std.specs.Prelude.{◌≡◌, ◌+◌, ◌++◌, ◌%◌, ◌^◌, sum, IfOk, OnOk};
ghost use Rattle.bench_story.specs.Counted.{barrier_request, bytes_by, count_of, flow_mod, head_by, is_of, replies_to, reply_by, total};

use ctl_life::Saying;
use net_base::{Bytes, NoMemory};
use of13_codec::{FrameHead, Message, encode, header};
use std::alloc::{AllocError, Global};

/// The types of messages that are counted (OpenFlow 1.3, 7.1).
const BARRIER_REQUEST: u8 = 20;

const FLOW_MOD: u8 = 14;

/// Counts of what was said.
#[derive(Clone, Copy, Debug)]
pub struct Counts {
    /// The BARRIER_REQUESTs.
    pub batches: u64,
    /// The FLOW_MODs.
    pub commands: u64,
    /// The values of all bytes together, in 32 bits.
    pub sum: u32,
}

/// The header of a message.
fn head_by(saying: &Saying) -> Option<FrameHead>
    ensures { result ≡ head_by saying.now }
{
    match saying {
        Saying::Send { bytes, .. } => header(bytes.as_slice()),
        Saying::Close { .. } => None,
        Saying::Line(_) => None,
    }
}

/// Whether it is a message of this type.
fn is_of(saying: &Saying, kind: u8) -> bool
    ensures { result ≡ is_of kind saying.now }
{
    match head_by(saying) {
        Some(head) => head.kind == kind,
        None => false,
    }
}

/// How many messages of a type there are.
#[tactic(auto, unfolding(crate::specs::Counted::count_of))]
fn count_of(sayings: &[Saying], kind: u8) -> usize
    ensures { result ≡ count_of kind sayings.now }
{
    sayings.iter().filter(|saying| is_of(saying, kind)).count()
}

/// A count with so many more; `NoMemory` where they are too many to be counted.
fn counted(count: u64, more: usize) -> Result<u64, NoMemory>
    ensures { IfOk result (λ all. all ≡ count + more) }
{
    match count.checked_add(more as u64) {
        Some(all) => Ok(all),
        None => Err(AllocError),
    }
}

/// The bytes of a message.
fn bytes_by(saying: &Saying) -> &[u8]
    ensures { result.now ≡ bytes_by saying.now }
{
    match saying {
        Saying::Send { bytes, .. } => bytes.as_slice(),
        Saying::Close { .. } => &[],
        Saying::Line(_) => &[],
    }
}

fn add_bytes(before: u32, bytes: &[u8]) -> u32
    ensures { result ≡ (before + sum bytes.now) % 2 ^ 32 }
{
    let mut all = before;
    for byte in bytes {
        all = all.wrapping_add(u32::from(*byte));
    }
    all
}

#[tactic(auto, using(crate::proofs::Counting::onward), unfolding(crate::specs::Counted::total))]
fn add_sayings(before: u32, sayings: &[Saying]) -> u32
    ensures { result ≡ (before + total sayings.now) % 2 ^ 32 }
{
    let mut all = before;
    for saying in sayings {
        all = add_bytes(all, bytes_by(saying));
    }
    all
}

impl Counts {
    /// Nothing was said.
    pub(crate) fn none() -> Counts
        ensures { result ≡ record { batches = 0; commands = 0; sum = 0 } }
    {
        Counts {
            batches: 0,
            commands: 0,
            sum: 0,
        }
    }

    /// Counts what is said. `NoMemory` where it is too much to be counted.
    pub(crate) fn add(&mut self, sayings: &[Saying]) -> Result<(), NoMemory>
        ensures batches { OnOk result (self.new.batches ≡ self.old.batches + count_of barrier_request sayings.now) }
        ensures commands { OnOk result (self.new.commands ≡ self.old.commands + count_of flow_mod sayings.now) }
        ensures sum { OnOk result (self.new.sum ≡ (self.old.sum + total sayings.now) % 2 ^ 32) }
    {
        self.batches = counted(self.batches, count_of(sayings, BARRIER_REQUEST))?;
        self.commands = counted(self.commands, count_of(sayings, FLOW_MOD))?;
        self.sum = add_sayings(self.sum, sayings);
        Ok(())
    }
}

fn put_reply(alloc: Global, out: &mut Bytes, head: Option<FrameHead>) -> Result<(), NoMemory>
    ensures { OnOk result (out.new ≡ out.old ++ reply_by head) }
{
    match head {
        Some(head) if head.kind == BARRIER_REQUEST => {
            encode(alloc, &Message::BarrierReply, head.xid, out)
        }
        _ => Ok(()),
    }
}

/// Adds the replies that a switch owes for what is said to it: one to each barrier.
#[tactic(auto, unfolding(crate::specs::Counted::replies_to))]
pub(crate) fn put_replies(
    alloc: Global,
    out: &mut Bytes,
    sayings: &[Saying],
) -> Result<(), NoMemory>
    ensures { OnOk result (out.new ≡ out.old ++ replies_to sayings.now) }
{
    for saying in sayings {
        put_reply(alloc, out, head_by(saying))?;
    }
    Ok(())
}
