//! Which frames are answered and learned from.

ghost use Rattle.std.specs.Prelude.{◌≡◌};
ghost use Rattle.pkt_view.specs.Frame.{shown};
ghost use Rattle.neighbour_resolve.specs.Counted.{counted_vid, is_edge_membership, only_vid, vid_of};

use conf_types::{Conf, Member};
use net_base::{DpId, PortNo, Vid};
use pkt_view::{FrameView, u16_at};

fn vid_of(n: u16) -> Option<Vid>
    ensures { result ≡ vid_of n }
{
    Vid::new(n)
}

/// The VLAN of a frame's one tag.
fn only_vid(frame: &FrameView<'_>) -> Option<Vid>
    ensures { result ≡ only_vid (shown frame.now) }
{
    if frame.tags.len() == 4 {
        vid_of(u16_at(frame.tags, 2) % 0x1000)
    } else {
        None
    }
}

fn is_edge_membership(member: Member) -> bool
    ensures { result ≡ is_edge_membership member }
{
    matches!(member, Member::Native | Member::Tagged)
}

/// The VLAN in which a frame counts that a datapath had by a port and handed on: the frame has
/// exactly one tag (IEEE 802.1Q, 9.6), and the port is an edge member of the tag's VLAN. Its host may
/// be learned and it may be answered; `None` for every other frame, which is passed over.
pub fn counted_vid(conf: &Conf, dp: DpId, port: PortNo, frame: &FrameView<'_>) -> Option<Vid>
    ensures { result ≡ counted_vid conf.now dp port (shown frame.now) }
{
    let vid = only_vid(frame)?;
    if is_edge_membership(conf.member(dp, port, vid)) {
        Some(vid)
    } else {
        None
    }
}
