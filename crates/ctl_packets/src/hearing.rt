ghost use Rattle.std.specs.Prelude.{◌≡◌, ◌≤◌, false};
ghost use Rattle.pkt_view.specs.Frame.{shown};
ghost use Rattle.ctl_packets.specs.Changes.{hears_neighbour};
ghost use Rattle.ctl_packets.specs.Packets.{hear_neighbour, least_time};

use conf_types::{Conf, Dp};
use ctl_world::World;
use neighbour_resolve::{Want, heard_sender};
use net_base::{DpId, Vid};
use pkt_view::FrameView;

/// More seconds than any datapath has, so many as are fewer than 2^32 milliseconds.
const MOST: u32 = 4_294_967;

/// How long a neighbour of a group that was heard stays so, in seconds: the least time of the group's
/// configured datapaths.
fn least_time(conf: &Conf, group: DpId, dps: &[Dp]) -> u32
    ensures time { result ≡ least_time conf.now group dps.now }
    ensures most { result ≤ 4294967 }
{
    match dps {
        [] => MOST,
        [dp, more @ ..] => {
            let least = least_time(conf, group, more);
            if conf.group_number(dp.id) == group {
                dp.arp_timeout.min(least)
            } else {
                least
            }
        }
    }
}

/// The neighbour that a frame lets hear is known. Answers whether one was heard that there is room for.
pub(crate) fn hear_neighbour(world: &mut World, dp: DpId, vid: Vid, frame: &FrameView<'_>) -> bool
    ensures done { world.new ≡ hear_neighbour dp vid (shown frame.now) world.old }
    ensures same { result ≡ false → world.new ≡ world.old }
    ensures told { result ≡ hears_neighbour dp vid (shown frame.now) world.old }
{
    let Some(sender) = heard_sender(&world.conf, vid, frame) else {
        return false;
    };
    let group = world.conf.group_number(dp);
    let timeout = least_time(&world.conf, group, world.conf.dps().as_slice()) * 1000;
    let heard = world
        .neighbours
        .heard(group, vid, sender.ip, sender.mac, timeout, world.moment);
    match heard {
        Want::Added | Want::Known => true,
        Want::Full => false,
    }
}
