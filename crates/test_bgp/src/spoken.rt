//! The speaker of a router over whole stories, as a hub drives it.

use crate::story::{happening_in, number_in, peering_of};
use crate::texts::document_in;
use bgp_drive::DrivenSpeaker;
use bgp_texts::vlan_key;
use ctl_life::Saying;
use hub_drive::Machine;
use net_base::{NoMemory, Vid};
use std::alloc::Global;
use std::fmt::Write;
use yaml_tree::{Key, Tree};

fn key_of(alloc: Global, tree: &Tree, number: &str) -> Result<Option<Key>, NoMemory> {
    let number = u16::try_from(number_in(number)).unwrap_or(0);
    match Vid::new(number) {
        Some(vid) => vlan_key(alloc, tree, vid),
        None => Ok(None),
    }
}

fn write_saying(out: &mut String, alloc: Global, saying: &Saying) -> Result<(), NoMemory> {
    match saying {
        Saying::Send { conn, bytes } => {
            let digits = hex::encode(alloc, bytes.as_slice())?;
            write!(out, "{conn}: {digits}; ")
        }
        Saying::Close { conn, cause } => write!(out, "close {conn} {}; ", cause.name()),
        Saying::Line(text) => write!(out, "{}; ", text.as_str()),
    }
}

fn take_word(
    out: &mut String,
    alloc: Global,
    speaker: &mut DrivenSpeaker,
    word: &str,
) -> Result<(), NoMemory> {
    let (what, rest) = word.split_once(':').unwrap_or((word, ""));
    let taken = speaker.turn(alloc, &happening_in(alloc, what, rest)?)?;
    for saying in taken.sayings.as_slice() {
        write_saying(out, alloc, saying)?;
    }
    let digits = hex::encode(alloc, taken.prints.as_slice())?;
    write!(out, "at {}: {digits}; ", taken.moment)
}

/// Writes what a router's speaker says to the words of a text, and behind that of each word the moment and the records.
/// The first four words are the number of a VLAN, our AS, our identifier and the peer's AS; the others are those of a
/// story. Behind the word `in` stands the document.
pub fn write_spoken(out: &mut String, alloc: Global, text: &str) -> Result<(), NoMemory> {
    let (story, document) = text.split_once(" in ").unwrap_or((text, ""));
    let Some(tree) = document_in(alloc, document)? else {
        return out.push_str("no document");
    };
    let mut words = story.split_whitespace();
    let vlan = key_of(alloc, &tree, words.next().unwrap_or(""))?;
    let our_as = words.next().unwrap_or("");
    let id = words.next().unwrap_or("");
    let peering = peering_of(our_as, id, words.next().unwrap_or(""));
    let mut speaker = DrivenSpeaker::new(alloc, peering, vlan, tree)?;
    for word in words {
        take_word(out, alloc, &mut speaker, word)?;
    }
    Ok(())
}
