ghost use Rattle.std.specs.Prelude.{◌≡◌, List, false, IfOk, OnOk};
ghost use Rattle.conf_types.specs.declared.state.HostRec.{HostRec};
ghost use Rattle.conf_types.specs.Configuration.{Configuration};
ghost use Rattle.host_learn.specs.Learning.{hosts_after};
ghost use Rattle.ctl_packets.specs.Changes.{is_change, learns};
ghost use Rattle.ctl_packets.specs.Packets.{learn};

use ctl_world::World;
use host_learn::Learn;
use net_base::{DpId, Mac, NoMemory, PortNo, Vid};

/// Whether a host stands elsewhere or later than before, where this became of one that was heard.
fn is_change(said: Learn) -> bool
    ensures told { result ≡ is_change said }
    ensures same { result ≡ false → (conf : Configuration) (heard : HostRec) (hosts : List HostRec) → hosts_after conf heard hosts said ≡ hosts }
{
    match said {
        Learn::Learned | Learn::Moved | Learn::Refreshed => true,
        Learn::Full | Learn::NotLearnable => false,
    }
}

/// The source of a frame is learned at the port that it came in by, where that is up. Answers whether
/// something was learned.
pub(crate) fn learn(
    world: &mut World,
    dp: DpId,
    port: PortNo,
    vid: Vid,
    mac: Mac,
) -> Result<bool, NoMemory>
    ensures done { OnOk result (world.new ≡ learn dp port vid mac world.old) }
    ensures same { IfOk result (λ changed. changed ≡ false → world.new ≡ world.old) }
    ensures told { IfOk result (λ changed. changed ≡ learns dp port vid mac world.old) }
{
    if !world.has_up(dp, port) {
        return Ok(false);
    }
    let said = world
        .hosts
        .learn(&world.conf, dp, port, vid, mac, world.moment)?;
    Ok(is_change(said))
}
