//! The open connections, by number.

ghost use Rattle.std.specs.Prelude.{◌≡◌, ◌<◌, [], length, map, position, IfSome, OnOk, IfOk};
ghost use Rattle.std.specs.List.{find, list_any};
ghost use Rattle.std.specs.Option.{option_copied, option_map_or};
ghost use Rattle.probe_hub.specs.Conn.{is_due, losing_all, releasing_all, taken_in};
ghost use Rattle.probe_hub.specs.Conns.{came_on, change, conn_with, has_number, is_above, is_open, noted, opened, put, told_next, without};

use crate::conn::Conn;
use crate::links::{LinkEnd, Links};
use crate::notices::Notice;
use net_base::NoMemory;
use std::alloc::Global;
use std::marker::Model;

/// The open connections, by number. Contracts see the list.
#[derive(Drop)]
pub(crate) struct Conns {
    conns: Vec<Conn>,
}

impl Model for Conns {
    ghost use Rattle.std.specs.Prelude.{List};
    ghost use Rattle.probe_hub.specs.declared.conn.Conn.{Conn};

    ghost Value = { List Conn };

    ghost view = { λ it. it.conns.items };
}

/// Whether the connection with a number is open.
fn is_open(conns: &[Conn], number: u32) -> bool
    ensures { result ≡ is_open conns.now number }
{
    conns.iter().any(|conn| conn.number == number)
}

/// Where the connection with a number stands.
fn place(conns: &[Conn], number: u32) -> Option<usize>
    ensures place { result ≡ position (has_number number) conns.now }
    ensures within { IfSome result (λ at. at < length conns.now) }
{
    conns.iter().position(|conn| conn.number == number)
}

/// Where the first connection stands on which something is due.
fn due_place(conns: &[Conn]) -> Option<usize>
    ensures place { result ≡ position is_due conns.now }
    ensures within { IfSome result (λ at. at < length conns.now) }
{
    conns.iter().position(|conn| conn.is_due())
}

/// Where the first connection with a greater number stands.
fn place_above(conns: &[Conn], number: u32) -> Option<usize>
    ensures place { result ≡ position (is_above number) conns.now }
    ensures within { IfSome result (λ at. at < length conns.now) }
{
    conns.iter().position(|conn| number < conn.number)
}

/// Puts a connection in its place by its number.
fn put(conns: &mut Vec<Conn>, conn: Conn) -> Result<(), NoMemory>
    ensures { OnOk result (conns.new.items ≡ put conn conns.old.items) }
{
    let Some(at) = place_above(conns.as_slice(), conn.number) else {
        conns.push(conn)?;
        return Ok(());
    };
    conns.insert(at, conn)?;
    Ok(())
}

fn remove_from(conns: &mut Vec<Conn>, number: u32)
    ensures { conns.new.items ≡ without number conns.old.items }
{
    conns.retain(|conn| conn.number != number);
}

fn take_in_each(
    conns: &mut [Conn],
    alloc: Global,
    links: &Links,
    moment: u64,
) -> Result<(), NoMemory>
    ensures { OnOk result (conns.new ≡ map (taken_in links.now moment) conns.old) }
{
    for conn in conns.iter_mut() {
        conn.take_in(alloc, links, moment)?;
    }
    Ok(())
}

fn lose_each(conns: &mut [Conn], moment: u64, ends: &[LinkEnd]) -> Result<(), NoMemory>
    ensures { OnOk result (conns.new ≡ map (losing_all moment ends.now) conns.old) }
{
    for conn in conns.iter_mut() {
        conn.lose(moment, ends)?;
    }
    Ok(())
}

fn release_each(conns: &mut [Conn], next: &Links, ends: &[LinkEnd]) -> Result<(), NoMemory>
    ensures { OnOk result (conns.new ≡ map (releasing_all next.now.ends ends.now) conns.old) }
{
    for conn in conns.iter_mut() {
        conn.release(next, ends)?;
    }
    Ok(())
}

impl Conns {
    /// None.
    pub(crate) fn new(alloc: Global) -> Conns
        ensures { result ≡ [] }
    {
        Conns {
            conns: Vec::new(alloc),
        }
    }

    pub(crate) fn as_slice(&self) -> &[Conn]
        ensures { result.now ≡ self.now }
    {
        self.conns.as_slice()
    }

    /// A connection opens; nothing where it is open.
    pub(crate) fn open(&mut self, alloc: Global, number: u32) -> Result<(), NoMemory>
        ensures { OnOk result (self.new ≡ opened number self.old) }
    {
        if is_open(self.conns.as_slice(), number) {
            return Ok(());
        }
        put(&mut self.conns, Conn::new(alloc, number))
    }

    /// A connection ends.
    pub(crate) fn end(&mut self, number: u32)
        ensures { self.new ≡ without number self.old }
    {
        remove_from(&mut self.conns, number);
    }

    /// The ports' descriptions were asked for on a connection, with this transaction id.
    pub(crate) fn ask(&mut self, number: u32, xid: u32)
        ensures { self.new ≡ noted number xid self.old }
    {
        if let Some(at) = place(self.conns.as_slice(), number) {
            self.conns[at].peer.ask(xid);
        }
    }

    /// Each connection hears what came whole.
    pub(crate) fn take_in(
        &mut self,
        alloc: Global,
        links: &Links,
        moment: u64,
    ) -> Result<(), NoMemory>
        ensures { OnOk result (self.new ≡ map (taken_in links.now moment) self.old) }
    {
        take_in_each(self.conns.as_mut_slice(), alloc, links, moment)
    }

    /// Bytes came on a connection: how many of them are given now.
    pub(crate) fn take_piece(
        &mut self,
        alloc: Global,
        links: &Links,
        moment: u64,
        number: u32,
        piece: &[u8],
    ) -> Result<usize, NoMemory>
        ensures { IfOk result (λ given. (self.new, given) ≡ came_on links.now moment number piece.now self.old) }
    {
        match place(self.conns.as_slice(), number) {
            Some(at) => self.conns[at].take_piece(alloc, links, moment, piece),
            None => Ok(piece.len()),
        }
    }

    /// What is due next, and on which connection; it then isn't any more. `None` where nothing is.
    pub(crate) fn take_due(&mut self) -> Option<(u32, Notice)>
        ensures { (self.new, result) ≡ told_next self.old }
    {
        match due_place(self.conns.as_slice()) {
            Some(at) => self.conns[at].take_notice(),
            None => None,
        }
    }

    /// Ports get lost at this moment.
    pub(crate) fn lose(&mut self, moment: u64, ends: &[LinkEnd]) -> Result<(), NoMemory>
        ensures { OnOk result (self.new ≡ map (losing_all moment ends.now) self.old) }
    {
        lose_each(self.conns.as_mut_slice(), moment, ends)
    }

    /// Ports that new links don't watch aren't lost any more.
    pub(crate) fn release(&mut self, next: &Links, ends: &[LinkEnd]) -> Result<(), NoMemory>
        ensures { OnOk result (self.new ≡ map (releasing_all next.now.ends ends.now) self.old) }
    {
        release_each(self.conns.as_mut_slice(), next, ends)
    }
}
