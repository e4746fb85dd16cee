//! What is answered to a frame, whom it lets hear, and what is asked.

use crate::addresses::{ip, put_ip};
use conf_types::Conf;
use neighbour_resolve::{Reply, answer, ask, counted_vid, heard_sender, send_back};
use net_base::{DpId, NoMemory, PortNo, Vid};
use of_match::Action;
use pkt_view::{FrameView, view};
use std::alloc::Global;
use std::str::SplitWhitespace;
use test_words::{dp_id, port_no, put_actions, put_mac, vid};

/// A frame in hexadecimal digits, and what is done to it.
fn sent(alloc: Global, frame: &[u8], actions: &[Action]) -> Result<String, NoMemory> {
    let mut out = hex::encode(alloc, frame)?;
    out.push_str(": ")?;
    put_actions(alloc, &mut out, actions)?;
    Ok(out)
}

/// The answer to a frame that came in by a port, and how it leaves.
fn answered(
    alloc: Global,
    conf: &Conf,
    dp: DpId,
    port: PortNo,
    frame: &FrameView<'_>,
) -> Result<String, NoMemory> {
    let reply = match answer(alloc, conf, dp, port, frame)? {
        Reply::ArpReply(reply) | Reply::EchoReply(reply) | Reply::Advert(reply) => reply,
        Reply::Nothing => return format!(in alloc; "nothing"),
    };
    let Some(vid) = counted_vid(conf, dp, port, frame) else {
        return format!(in alloc; "an answer to what doesn't count");
    };
    let actions = send_back(alloc, vid, port, conf.member(dp, port, vid))?;
    sent(alloc, reply.as_slice(), actions.as_slice())
}

/// Whom a frame that counts in a VLAN lets hear.
fn sender(alloc: Global, conf: &Conf, vid: Vid, frame: &FrameView<'_>) -> Result<String, NoMemory> {
    let mut out = format!(in alloc; "vlan {}", vid.get())?;
    if let Some(sender) = heard_sender(conf, vid, frame) {
        out.push_str(" ")?;
        put_ip(alloc, &mut out, sender.ip)?;
        out.push_str(" ")?;
        put_mac(alloc, &mut out, sender.mac)?;
    }
    Ok(out)
}

/// A datapath, a port and a frame: what becomes of it.
pub fn seen(
    alloc: Global,
    conf: &Conf,
    name: &str,
    words: &mut SplitWhitespace<'_>,
) -> Result<Option<String>, NoMemory> {
    let (Some(dp), Some(port), Some(digits)) = (dp_id(words), port_no(words), words.next()) else {
        return Ok(None);
    };
    let Ok(frame) = hex::decode(alloc, digits) else {
        return Ok(None);
    };
    match view(frame.as_slice()) {
        Some(frame) if name == "answer" => Ok(Some(answered(alloc, conf, dp, port, &frame)?)),
        Some(frame) => match counted_vid(conf, dp, port, &frame) {
            Some(vid) => Ok(Some(sender(alloc, conf, vid, &frame)?)),
            None => Ok(Some(format!(in alloc; "passed over")?)),
        },
        None => Ok(None),
    }
}

/// A datapath, a VLAN and an address: what the datapath is told to send, to ask for it.
pub fn asked(
    alloc: Global,
    conf: &Conf,
    words: &mut SplitWhitespace<'_>,
) -> Result<Option<String>, NoMemory> {
    let (Some(dp), Some(vid), Some(ip)) = (dp_id(words), vid(words), ip(words)) else {
        return Ok(None);
    };
    let text = match ask(alloc, conf, dp, vid, ip)? {
        Some(out) => sent(alloc, out.frame.as_slice(), out.actions.as_slice())?,
        None => format!(in alloc; "nothing")?,
    };
    Ok(Some(text))
}
