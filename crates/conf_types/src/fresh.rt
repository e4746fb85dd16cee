ghost use Rattle.std.specs.Prelude.{◌≡◌, ◌<◌, ◌^◌};
ghost use Rattle.conf_types.specs.State.{forgotten_at, fresh_for, is_fresh, is_to_forget, stale_at};

use crate::conf::Conf;
use crate::state::HostRec;
use net_base::{DpId, Moment};

/// Milliseconds for which a host that is stale is kept.
const STALE_FOR: u64 = 30_000;

fn fresh_for(conf: &Conf, dp: DpId) -> u64
    ensures exact { result ≡ fresh_for conf.now dp }
    ensures small { result < 2 ^ 43 }
{
    match conf.dp(dp) {
        Some(dp) => u64::from(dp.timeout) * 1000,
        None => 0,
    }
}

impl Conf {
    /// The moment at which a host of a datapath that was last heard at this one turns stale: the
    /// datapath's timeout later. A sum past the greatest moment counts as that moment.
    pub fn stale_at(&self, dp: DpId, heard: Moment) -> Moment
        ensures { result.0 ≡ stale_at self.now dp heard.0 }
    {
        Moment(heard.0.saturating_add(fresh_for(self, dp)))
    }

    /// The moment at which a host of a datapath that was last heard at this one is to be forgotten, if
    /// its port doesn't keep it for good: 30 seconds after it turned stale. A sum past the greatest
    /// moment counts as that moment.
    pub fn forgotten_at(&self, dp: DpId, heard: Moment) -> Moment
        ensures { result.0 ≡ forgotten_at self.now dp heard.0 }
    {
        Moment(heard.0.saturating_add(fresh_for(self, dp) + STALE_FOR))
    }

    /// Whether a host is fresh at a moment: the one of `stale_at` is still to come, or its port keeps it
    /// for good. Every other host is stale.
    pub fn is_fresh(&self, moment: Moment, host: &HostRec) -> bool
        ensures { result ≡ is_fresh self.now moment.0 host.now }
    {
        moment.0 < self.stale_at(host.dp, host.learned).0 || self.is_permanent(host)
    }

    /// Whether a host is to be forgotten at a moment: the one of `forgotten_at` has come, and its port
    /// doesn't keep it for good.
    pub fn is_to_forget(&self, moment: Moment, host: &HostRec) -> bool
        ensures { result ≡ is_to_forget self.now moment.0 host.now }
    {
        self.forgotten_at(host.dp, host.learned).0 <= moment.0 && !self.is_permanent(host)
    }
}
