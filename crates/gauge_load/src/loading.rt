ghost use Rattle.std.specs.Prelude.{◌≡◌, ℕ, List, Some, Result, IfErr, IsErrOf};
ghost use Rattle.fg_outside.specs.Contents.{Contents};
ghost use Rattle.conf_shape.specs.declared.refused.ConfFault.{ConfFault};
ghost use Rattle.conf_gather.specs.Files.{ReadsFiles};
ghost use Rattle.conf_gather.specs.Gives.{Fails, Gives, GivesTold, IsWithin};
ghost use Rattle.conf_gather.specs.Gathered.{NamesUnread, held_by};
ghost use Rattle.gauge_conf.specs.declared.gauge.GaugeConf.{GaugeConf};
ghost use Rattle.gauge_conf.specs.declared.raw.RawGauge.{RawGauge};
ghost use Rattle.gauge_conf.specs.Conflicts.{written_in, IsRefused};
ghost use Rattle.gauge_load.specs.Loaded.{unless_fault, with_conf, raw_by, named_by, gauge_by, gauge_of};

use conf_gather::{Include, LoadRefused, Role, read_tree, whole_name};
use conf_load::load;
use conf_shape::ConfRefused;
use conf_types::Conf;
use fg_outside::Files;
use gauge_conf::{GaugeConf, RawGauge, read_gauge, resolve_gauge};
use net_base::Text;
use std::alloc::Global;
use yaml_tree::Tree;

fn refusal(refused: ConfRefused) -> LoadRefused
    ensures raw { (given : Result RawGauge ConfFault) → IsRefused given refused → Fails result (unless_fault given) }
    ensures gauge { (given : Result GaugeConf ConfFault) → IsRefused given refused → Fails result (unless_fault given) }
    ensures within { IsWithin result }
{
    match refused {
        ConfRefused::At(fault) => LoadRefused::Conf(fault),
        ConfRefused::Memory => LoadRefused::Memory,
    }
}

fn written(alloc: Global, tree: &Tree) -> Result<RawGauge, LoadRefused>
    ensures told { Gives result (unless_fault (written_in tree.now)) }
    ensures within { IfErr result IsWithin }
{
    match read_gauge(alloc, tree) {
        Ok(raw) => Ok(raw),
        Err(refused) => Err(refusal(refused)),
    }
}

fn resolved(alloc: Global, raw: &RawGauge, conf: Conf) -> Result<GaugeConf, LoadRefused>
    ensures told { Gives result (with_conf raw.now conf) }
    ensures within { IfErr result IsWithin }
{
    match resolve_gauge(alloc, raw, conf) {
        Ok(gauge) => Ok(gauge),
        Err(refused) => Err(refusal(refused)),
    }
}

/// What the file says.
fn read_raw<F: Files>(alloc: Global, files: &mut F, name: &str) -> Result<RawGauge, LoadRefused>
    ensures told { GivesTold (F.contents files.old) result (λ held. raw_by (held_by held) name.now) }
    ensures named { (file : List ℕ) → IsErrOf result (LoadRefused.Read file) → file ≡ name.now }
    ensures files { ReadsFiles F.contents F.faults F.absences F.refused files.old files.new result }
{
    let main = Include {
        name: Text::from_str(alloc, name)?,
        role: Role::Main,
    };
    match read_tree(alloc, files, &main)? {
        Some(tree) => written(alloc, &tree),
        None => unreachable!(),
    }
}

/// With the configuration that it names.
fn with_named<F: Files>(
    alloc: Global,
    files: &mut F,
    name: &str,
    raw: &RawGauge,
) -> Result<GaugeConf, LoadRefused>
    ensures told { GivesTold (F.contents files.old) result (λ held. named_by (held_by held) name.now raw.now) }
    ensures unread { NamesUnread (F.contents files.old) result (λ finds. named_by finds name.now raw.now) }
    ensures files { ReadsFiles F.contents F.faults F.absences F.refused files.old files.new result }
{
    let faucet = whole_name(alloc, name, raw.faucet_config.as_str())?;
    let conf = load(alloc, files, faucet.as_str())?;
    resolved(alloc, raw, conf)
}

/// Gauge's configuration of a file, with the configuration of the file that it names, relative to its own
/// folder (`conf_load::load`).
///
/// Refused for the first of these that is met: `Read` or `Absent` where the file can't be read or isn't
/// there, `Yaml` for its text, `Conf` as `gauge_conf::read_gauge` refuses it, what `load` refuses of the file
/// that it names, and `Conf` with `Unresolved` for a datapath that isn't in that. A path is one of Gauge's
/// file, but where `load` tells it.
pub fn load_gauge<F: Files>(
    alloc: Global,
    files: &mut F,
    name: &str,
) -> Result<GaugeConf, LoadRefused>
    ensures told { (held : Contents) → F.contents files.old ≡ Some held → Gives result (gauge_of (held 0) name.now) }
    ensures unread { NamesUnread (F.contents files.old) result (λ finds. gauge_by finds name.now) }
    ensures files { ReadsFiles F.contents F.faults F.absences F.refused files.old files.new result }
{
    let raw = read_raw(alloc, files, name)?;
    with_named(alloc, files, name, &raw)
}
