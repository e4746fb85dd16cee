ghost use Rattle.std.specs.Prelude.{◌≡◌, ◌++◌, OnOk};
ghost use Rattle.std.specs.List.{flat_map};
ghost use Rattle.sent_lines.specs.Lines.{further_tag, port_text, sent_line, tags_text, ttl_text};

use itoa::Buffer;
use net_base::{NoMemory, Text};
use of_match::{CONTROLLER, Packet, Tag, Upper};

/// Adds the number of a port, or the word for the controller.
fn put_port(out: &mut Text, port: u32) -> Result<(), NoMemory>
    ensures { OnOk result (out.new ≡ out.old ++ port_text port) }
{
    if port == CONTROLLER {
        out.append("controller")
    } else {
        out.append(Buffer::new().format(port))
    }
}

/// Adds the VLANs of the tags behind the outermost one, each behind a comma.
fn put_further_tags(out: &mut Text, tags: &[Tag]) -> Result<(), NoMemory>
    ensures { OnOk result (out.new ≡ out.old ++ flat_map further_tag tags.now) }
{
    for tag in tags {
        out.append(",")?;
        out.append(Buffer::new().format(tag.vid))?;
    }
    Ok(())
}

/// Adds the VLANs of the tags, or a dash where there is none.
fn put_tags(out: &mut Text, tags: &[Tag]) -> Result<(), NoMemory>
    ensures { OnOk result (out.new ≡ out.old ++ tags_text tags.now) }
{
    match tags {
        [] => out.append("-"),
        [outermost, further @ ..] => {
            out.append(Buffer::new().format(outermost.vid))?;
            put_further_tags(out, further)
        }
    }
}

/// Adds the time to live or hop limit, or a dash where the packet has none.
fn put_ttl(out: &mut Text, upper: &Upper) -> Result<(), NoMemory>
    ensures { OnOk result (out.new ≡ out.old ++ ttl_text upper.now) }
{
    match upper {
        Upper::None | Upper::Arp { .. } => out.append("-"),
        Upper::V4 { ttl, .. } => out.append(Buffer::new().format(*ttl)),
        Upper::V6 { hops, .. } => out.append(Buffer::new().format(*hops)),
    }
}

/// Adds the line of a packet that leaves by a port, with its end: the port's number, or `controller`; the VLANs of
/// its tags with commas between, the outermost first, or `-`; its source and its destination; and its time to
/// live or hop limit, or `-` where it has none.
pub fn put_sent(out: &mut Text, port: u32, packet: &Packet) -> Result<(), NoMemory>
    ensures { OnOk result (out.new ≡ out.old ++ sent_line port packet.now) }
{
    put_port(out, port)?;
    out.append(" ")?;
    put_tags(out, packet.tags.as_slice())?;
    out.append(" ")?;
    packet.src.print(out)?;
    out.append(" ")?;
    packet.dst.print(out)?;
    out.append(" ")?;
    put_ttl(out, &packet.upper)?;
    out.append("\n")
}
