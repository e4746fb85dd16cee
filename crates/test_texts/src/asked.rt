use conf_check::{TextRefused, conf_of_bytes};
use conf_types::{Conf, Member, UpRec, UpRecs};
use net_base::{NoMemory, TryCopy};
use std::alloc::{AllocError, Global};
use std::str::{SplitWhitespace, from_utf8};
use test_words::{dp_id, port_no, vid};

/// How many ports a question names at most.
const MOST_UPS: u32 = 100;

fn member(conf: &Conf, words: &mut SplitWhitespace<'_>) -> Option<Member> {
    let dp = dp_id(words)?;
    let port = port_no(words)?;
    let vid = vid(words)?;
    Some(conf.member(dp, port, vid))
}

/// The next of the ports that are up: a datapath and a port.
fn up(words: &mut SplitWhitespace<'_>) -> Option<UpRec> {
    let dp = dp_id(words)?;
    let port = port_no(words)?;
    Some(UpRec { dp, port })
}

fn write_links(
    out: &mut String,
    alloc: Global,
    conf: &Conf,
    words: &mut SplitWhitespace<'_>,
) -> Result<(), NoMemory> {
    let mut ups = UpRecs::new(alloc);
    for _ in 0..MOST_UPS {
        match up(words) {
            Some(up) => ups.push(up)?,
            None => break,
        }
    }
    write!(out, "{:?}", conf.links(alloc, ups.as_slice())?)
}

/// Writes what an interface is, whether it is an edge port, and whether it accepts packets.
fn write_port(
    out: &mut String,
    conf: &Conf,
    words: &mut SplitWhitespace<'_>,
) -> Result<(), NoMemory> {
    match up(words).and_then(|at| conf.port(at.dp, at.port)) {
        Some(port) => write!(out, "{} {} {port:?}", port.is_edge(), port.is_accepting()),
        None => out.push_str("none"),
    }
}

/// Writes the VLANs between which packets of a VLAN are routed, and the first router that has it.
fn write_routing(
    out: &mut String,
    alloc: Global,
    conf: &Conf,
    words: &mut SplitWhitespace<'_>,
) -> Result<(), NoMemory> {
    let Some(vid) = vid(words) else {
        return out.push_str("none");
    };
    let router = conf
        .routers()
        .as_slice()
        .iter()
        .find(|router| router.has(vid));
    write!(out, "{:?} {router:?}", conf.routing_set(alloc, vid)?)
}

fn write_reading(
    out: &mut String,
    alloc: Global,
    conf: &Conf,
    words: &mut SplitWhitespace<'_>,
) -> Result<(), NoMemory> {
    match words.next().unwrap_or("") {
        "member" => write!(out, "{:?}", member(conf, words)),
        "port" => write_port(out, conf, words),
        "group" => write!(out, "{:?}", dp_id(words).and_then(|dp| conf.group(dp))),
        "links" => write_links(out, alloc, conf, words),
        "routing" => write_routing(out, alloc, conf, words),
        "vlan" => write!(out, "{:?}", vid(words).and_then(|vid| conf.vlan(vid))),
        _ => write!(out, "{:?}", conf.acls()),
    }
}

/// Writes what the copy of a configuration answers to a question. The text is the question's line, and
/// behind it the configuration.
pub fn write_asked(out: &mut String, alloc: Global, text: &[u8]) -> Result<(), NoMemory> {
    let text = from_utf8(text).unwrap_or("");
    let (question, text) = text.split_once('\n').unwrap_or((text, ""));
    match conf_of_bytes(alloc, text.as_bytes()) {
        Ok(conf) => {
            let conf = conf.copy(alloc)?;
            write_reading(out, alloc, &conf, &mut question.split_whitespace())
        }
        Err(TextRefused::Memory) => Err(AllocError),
        Err(_) => out.push_str("refused"),
    }
}
