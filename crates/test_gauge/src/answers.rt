use conf_gather::LoadRefused;
use gauge_conf::{Db, GaugeConf, WatchKind, Watcher};
use net_base::NoMemory;
use std::alloc::AllocError;

fn word_of(kind: WatchKind) -> &'static str {
    match kind {
        WatchKind::PortState => "port_state",
        WatchKind::PortStats => "port_stats",
        WatchKind::FlowTable => "flow_table",
    }
}

/// The file of a db, or that it takes blocks.
fn db_word(db: &Db) -> &str {
    match db {
        Db::Text(file) => file.as_str(),
        Db::Prometheus => "<prometheus>",
    }
}

fn write_watcher(out: &mut String, watcher: &Watcher) -> Result<(), NoMemory> {
    let kind = word_of(watcher.kind);
    write!(out, "[{}: {kind} of", watcher.name.as_str())?;
    for dp in watcher.dps.as_slice() {
        write!(out, " {}", dp.0)?;
    }
    write!(out, " every {} in", watcher.interval)?;
    for db in watcher.dbs.as_slice() {
        write!(out, " {}", db_word(db))?;
    }
    out.push_str("]")
}

fn write_gauge(out: &mut String, gauge: &GaugeConf) -> Result<(), NoMemory> {
    write!(out, "{} dps", gauge.conf.dps().len())?;
    for watcher in gauge.watchers.as_slice() {
        out.push_str(" ")?;
        write_watcher(out, watcher)?;
    }
    Ok(())
}

fn write_refusal(out: &mut String, refused: &LoadRefused) -> Result<(), NoMemory> {
    match refused {
        LoadRefused::Read(name) => write!(out, "{}: Read", name.as_str()),
        LoadRefused::Yaml(name, fault) => {
            let (cause, form) = fault.cause.names();
            write!(out, "{}: line {}: {cause}{form}", name.as_str(), fault.line)
        }
        LoadRefused::Conf(fault) => {
            let cause = fault.cause;
            write!(out, "{}: {cause:?}", fault.path.as_str())
        }
        LoadRefused::IncludeTwice(name) => write!(out, "{}: IncludeTwice", name.as_str()),
        LoadRefused::IncludeDepth(name) => write!(out, "{}: IncludeDepth", name.as_str()),
        LoadRefused::Absent(name) => write!(out, "{}: Absent", name.as_str()),
        LoadRefused::Memory => Err(AllocError),
    }
}

/// Writes what Gauge watches, or why it has no configuration.
pub fn write_answer(
    out: &mut String,
    answer: Result<GaugeConf, LoadRefused>,
) -> Result<(), NoMemory> {
    match answer {
        Ok(gauge) => write_gauge(out, &gauge),
        Err(refused) => write_refusal(out, &refused),
    }
}
