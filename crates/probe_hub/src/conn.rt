//! An open connection: the bytes that no frame has taken yet, and what is known of its switch.

ghost use Rattle.std.specs.Prelude.{◌≡◌, ◌≤◌, ◌-◌, [], length, drop, IfOk, OnOk};
ghost use Rattle.probe_hub.specs.Conn.{came, frame_ended, given_of, heard_frame, heard_frames, is_due, left_of, losing_all, new_conn, reads_packets, releasing_all, taken_in};

use crate::frames::{frame_len, is_read, read_message};
use crate::links::{LinkEnd, Links};
use crate::notices::Notice;
use crate::peer::Peer;
use net_base::{Bytes, NoMemory};
use std::alloc::Global;

/// An open connection.
#[derive(Drop)]
pub(crate) struct Conn {
    pub(crate) number: u32,
    /// What came that no frame has taken yet.
    pub(crate) unread: Bytes,
    pub(crate) peer: Peer,
}

/// Whether packets matter: a link ends at the datapath.
fn reads_packets(links: &Links, peer: &Peer) -> bool
    ensures { result ≡ reads_packets links.now peer.now }
{
    match peer.dp {
        Some(dp) => links.has_end_of(dp),
        None => false,
    }
}

/// Hears a frame at a moment.
fn hear_frame(
    alloc: Global,
    peer: &mut Peer,
    links: &Links,
    moment: u64,
    frame: &[u8],
) -> Result<(), NoMemory>
    requires { 8 ≤ length frame.now }
    ensures { OnOk result (peer.new ≡ heard_frame links.now moment frame.now peer.old) }
{
    if !is_read(frame, reads_packets(links, peer)) {
        return Ok(());
    }
    match read_message(alloc, frame)? {
        Some((message, xid)) => peer.hear(links, moment, &message, xid),
        None => Ok(()),
    }
}

/// Hears the frames at the front of the bytes, and tells how many bytes they take.
fn hear_frames(
    alloc: Global,
    peer: &mut Peer,
    links: &Links,
    moment: u64,
    bytes: &[u8],
) -> Result<usize, NoMemory>
    ensures heard { OnOk result (peer.new ≡ heard_frames (length bytes.now) links.now moment bytes.now peer.old) }
    ensures left { IfOk result (λ taken. drop taken bytes.now ≡ left_of (length bytes.now) bytes.now) }
    ensures within { IfOk result (λ taken. taken ≤ length bytes.now) }
{
    let mut taken = 0;
    for _ in 0..bytes.len() {
        let rest = &bytes[taken..];
        match frame_len(rest) {
            Some(len) => {
                hear_frame(alloc, peer, links, moment, &rest[..len])?;
                taken += len;
            }
            None => return Ok(taken),
        }
    }
    Ok(taken)
}

impl Conn {
    /// A connection that opened.
    pub(crate) fn new(alloc: Global, number: u32) -> Conn
        ensures { result ≡ new_conn number }
    {
        Conn {
            number,
            unread: Bytes::new(alloc),
            peer: Peer::new(alloc),
        }
    }

    /// Hears the frames that came whole, at a moment.
    pub(crate) fn take_in(
        &mut self,
        alloc: Global,
        links: &Links,
        moment: u64,
    ) -> Result<(), NoMemory>
        ensures { OnOk result (self.new ≡ taken_in links.now moment self.old) }
    {
        let taken = hear_frames(alloc, &mut self.peer, links, moment, self.unread.as_slice())?;
        if taken > 0 {
            self.unread = Bytes::from_slice(alloc, &self.unread.as_slice()[taken..])?;
        }
        Ok(())
    }

    /// The frame that was begun ended in the bytes that came, behind so many of the bytes of the connection: whether
    /// the rest of them has to wait, since something is to be told before.
    fn end_frame(
        &mut self,
        alloc: Global,
        links: &Links,
        moment: u64,
        len: usize,
    ) -> Result<bool, NoMemory>
        requires head { 8 ≤ len }
        requires within { len ≤ length self.old.unread }
        ensures ended { IfOk result (λ waits. (self.new, waits) ≡ frame_ended links.now moment len self.old) }
    {
        hear_frame(
            alloc,
            &mut self.peer,
            links,
            moment,
            &self.unread.as_slice()[..len],
        )?;
        let waits = self.peer.waiting.len() > 0;
        self.unread = if waits {
            Bytes::new(alloc)
        } else {
            Bytes::from_slice(alloc, &self.unread.as_slice()[len..])?
        };
        Ok(waits)
    }

    /// Bytes came at a moment. Where something is to be told at the end of the frame that is begun, and that end lies
    /// in them, what follows it is left; else nothing is. Tells how many of the bytes weren't left.
    pub(crate) fn take_piece(
        &mut self,
        alloc: Global,
        links: &Links,
        moment: u64,
        piece: &[u8],
    ) -> Result<usize, NoMemory>
        ensures came { IfOk result (λ given. (self.new, given) ≡ came links.now moment piece.now self.old) }
        ensures within { IfOk result (λ given. given ≤ length piece.now) }
    {
        let begun = self.unread.len();
        self.unread.append(piece)?;
        if self.peer.waiting.len() == 0 {
            return Ok(piece.len());
        }
        let Some(len) = frame_len(self.unread.as_slice()) else {
            return Ok(piece.len());
        };
        if self.end_frame(alloc, links, moment, len)? {
            Ok(len.saturating_sub(begun))
        } else {
            Ok(piece.len())
        }
    }

    /// Whether something is to be told, and no frame is begun.
    pub(crate) fn is_due(&self) -> bool
        ensures { result ≡ is_due self.now }
    {
        self.unread.len() == 0 && self.peer.waiting.len() > 0
    }

    /// What is to be told next, with the connection's number; it then isn't any more.
    pub(crate) fn take_notice(&mut self) -> Option<(u32, Notice)>
        ensures { (self.new, result) ≡ given_of self.old }
    {
        match self.peer.waiting.take_first() {
            Some(notice) => Some((self.number, notice)),
            None => None,
        }
    }

    /// Ports get lost at this moment.
    pub(crate) fn lose(&mut self, moment: u64, ends: &[LinkEnd]) -> Result<(), NoMemory>
        ensures { OnOk result (self.new ≡ losing_all moment ends.now self.old) }
    {
        self.peer.lose(moment, ends)
    }

    /// Ports that new links don't watch aren't lost any more.
    pub(crate) fn release(&mut self, next: &Links, ends: &[LinkEnd]) -> Result<(), NoMemory>
        ensures { OnOk result (self.new ≡ releasing_all next.now.ends ends.now self.old) }
    {
        self.peer.release(next, ends)
    }
}
