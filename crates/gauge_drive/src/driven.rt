ghost use Rattle.std.specs.Prelude.{◌≡◌, IfOk};
ghost use Rattle.gauge_poll.specs.Monitoring.{begun};
ghost use Rattle.gauge_drive.specs.Gauge.{StandsFor, joined};

use fg_outside::Happening;
use gauge_conf::GaugeConf;
use gauge_poll::{Gauge, GaugeTurn};
use hub_drive::{Machine, Taken};
use net_base::{Bytes, NoMemory, Text};
use std::alloc::Global;

/// A Gauge as a hub drives it.
#[derive(Drop)]
pub struct DrivenGauge {
    gauge: Gauge,
}

/// The lines and blocks, one behind the other.
fn joined(alloc: Global, lines: &[Text]) -> Result<Bytes, NoMemory>
    ensures { IfOk result (λ bytes. bytes ≡ joined lines.now) }
{
    let mut bytes = Bytes::new(alloc);
    for line in lines {
        bytes.append(line.as_str().as_bytes())?;
    }
    Ok(bytes)
}

impl DrivenGauge {
    /// A Gauge to which nothing happened yet.
    pub fn new(alloc: Global, conf: GaugeConf) -> Result<DrivenGauge, NoMemory>
        ensures { IfOk result (λ made. StandsFor made (begun conf)) }
    {
        let gauge = Gauge::new(alloc, conf)?;
        Ok(DrivenGauge { gauge })
    }
}

impl Machine for DrivenGauge {
    ghost use Rattle.gauge_drive.specs.Gauge.{monitors};

    ghost runs = { monitors };

    fn turn(&mut self, alloc: Global, what: &Happening) -> Result<Taken, NoMemory> {
        let GaugeTurn { sayings, lines } = self.gauge.turn(what)?;
        let moment = self.gauge.moment();
        let prints = joined(alloc, lines.as_slice())?;
        Ok(Taken {
            moment,
            sayings,
            prints,
        })
    }
}
