ghost use Rattle.std.specs.Prelude.{◌≡◌, ◌≤◌, ◌/◌, ◌-◌, ◌^◌, min, None, Some, IfOk, IfSome};
ghost use Rattle.std.specs.Duration.{as_nanos};
ghost use Rattle.real_links.specs.Ticks.{last_of, left_of};

use std::io;
use std::time::{Clock, Duration, Instant, SystemTime, UNIX_EPOCH};

// How many milliseconds lie between two moments that are told, at least.
const TICK: u64 = 100;

/// A clock in milliseconds since 1970, as they were when it started, that doesn't go back; and the
/// last moment that was told of it.
#[derive(Clone, Copy)]
pub(crate) struct Ticks {
    start: Instant,
    since_1970: u64,
    last: Option<u64>,
}

fn millis(duration: Duration) -> u64
    ensures { result ≡ min (as_nanos duration / 1_000_000) (2 ^ 64 - 1) }
{
    u64::try_from(duration.as_millis()).unwrap_or(u64::MAX)
}

impl Ticks {
    /// A clock of which no moment was told yet.
    pub(crate) fn start<R: Clock>(rt: &R) -> io::Result<Ticks>
        ensures { IfOk result (λ ticks. last_of ticks ≡ None) }
    {
        let now = SystemTime::now(rt)?.duration_since(UNIX_EPOCH);
        Ok(Ticks {
            start: Instant::now(rt)?,
            since_1970: millis(now.unwrap_or(Duration::ZERO)),
            last: None,
        })
    }

    /// What it shows, which is no less than the last moment.
    pub(crate) fn now<R: Clock>(&self, rt: &R) -> io::Result<u64>
        ensures { IfOk result (λ now. IfSome (last_of self.now) (λ last. last ≤ now)) }
    {
        let passed = millis(self.start.elapsed(rt)?);
        let shown = self.since_1970.saturating_add(passed);
        Ok(match self.last {
            Some(last) => shown.max(last),
            None => shown,
        })
    }

    /// How many milliseconds are left from now on until a moment is due: none where none was told
    /// yet.
    pub(crate) fn left(&self, now: u64) -> u64
        ensures { result ≡ left_of (last_of self.now) now }
    {
        match self.last {
            Some(last) => TICK.saturating_sub(now.saturating_sub(last)),
            None => 0,
        }
    }

    /// Notes that this moment is told.
    pub(crate) fn tell(&mut self, moment: u64)
        ensures { last_of self.new ≡ Some moment }
    {
        self.last = Some(moment);
    }
}
