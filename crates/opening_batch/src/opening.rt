ghost use Rattle.std.specs.Prelude.{◌≡◌, IfOk, Some};
ghost use Rattle.std.specs.List.{flat_map};
ghost use Rattle.std.specs.Option.{option_copied};
ghost use Rattle.conf_types.specs.Configuration.{dp_with};
ghost use Rattle.cold_start.specs.Cold.{cold};
ghost use Rattle.opening_batch.specs.Opening.{dp_called, ups_of, nothing_learned, batch_of, opening_of};

use crate::messages::make_opening;
use cold_start::cold;
use conf_types::{Conf, Dp, Tally, UpRec, UpRecs};
use host_list::Hosts;
use net_base::{Bytes, Items, Moment, NoMemory};
use of_match::Tables;
use packet_way::Now;
use std::alloc::Global;

fn find_dp<'a>(dps: &'a [Dp], name: &str) -> Option<&'a Dp>
    ensures { option_copied result ≡ dp_called dps.now name.now }
{
    dps.iter().find(|dp| dp.name.as_str() == name)
}

/// The enabled interfaces of a datapath.
fn dp_ups(alloc: Global, dp: &Dp) -> Result<Vec<UpRec>, NoMemory>
    ensures { IfOk result (λ ups. ups.items ≡ ups_of dp.now) }
{
    let id = dp.id;
    dp.ports
        .as_slice()
        .iter()
        .filter(|port| port.enabled)
        .map(|port| UpRec {
            dp: id,
            port: port.no,
        })
        .collect(alloc)
}

#[tactic(auto, using(crate::proofs::Joined::flat_more))]
fn all_ups(alloc: Global, dps: &[Dp]) -> Result<UpRecs, NoMemory>
    ensures { IfOk result (λ ups. ups ≡ flat_map ups_of dps.now) }
{
    let mut ups = UpRecs::new(alloc);
    for dp in dps {
        let made = dp_ups(alloc, dp)?;
        ups.append(made.as_slice())?;
    }
    Ok(ups)
}

/// The entries of a datapath of a configuration of which every enabled interface is up and nothing is
/// learned.
fn first_entries<T: Tally>(
    alloc: Global,
    conf: &Conf,
    dp: &Dp,
    units: &mut T,
) -> Result<Tables, NoMemory>
    requires { dp_with conf.now.dps dp.now.id ≡ Some dp.now }
    ensures { IfOk result (λ made. made ≡ cold conf.now (nothing_learned conf.now) dp.now) }
{
    let running = Items::new(alloc);
    let ups = all_ups(alloc, conf.dps().as_slice())?;
    let hosts = Hosts::new(alloc);
    let now = Now {
        moment: Moment(0),
        running: &running,
        ups: &ups,
        hosts: &hosts,
        neighbours: &[],
    };
    cold(alloc, conf, &now, dp.id, units)
}

/// The opening batch of a datapath of a configuration.
fn open_dp<T: Tally>(alloc: Global, conf: &Conf, dp: &Dp, units: &mut T) -> Result<Bytes, NoMemory>
    requires { dp_with conf.now.dps dp.now.id ≡ Some dp.now }
    ensures { IfOk result (λ batch. batch ≡ batch_of conf.now dp.now) }
{
    let entries = first_entries(alloc, conf, dp, units)?;
    make_opening(alloc, &entries)
}

/// The messages that open the datapath of a name, of which all enabled interfaces are up, as those of
/// all datapaths, and nothing is learned: its tables are wiped, and behind a barrier the entries of the
/// cold start are added, with a barrier at the end. OpenFlow 1.3, big-endian, transaction ids from 1.
/// `None` exactly where the configuration has no datapath of this name.
pub fn opening_batch<T: Tally>(
    alloc: Global,
    conf: &Conf,
    dp: &str,
    units: &mut T,
) -> Result<Option<Bytes>, NoMemory>
    ensures { IfOk result (λ batch. batch ≡ opening_of conf.now dp.now) }
{
    let Some(dp) = find_dp(conf.dps().as_slice(), dp) else {
        return Ok(None);
    };
    Ok(Some(open_dp(alloc, conf, dp, units)?))
}
