//! Runs of `faucet_recorded`, and what their recordings hold.

use crate::around::{hub_of, put_told};
use crate::bench::Outside;
use crate::runs::{put_written, words};
use fg_outside::{CallNos, HeldFile, MemFiles, MemSink};
use net_base::{Bytes, NoMemory, Text};
use recorded_top::faucet_recorded;
use std::alloc::Global;

/// The name under which the recording of a run is held for the runs behind it.
const FLIGHT: &str = "flight";

/// Runs the program over a hub that gives the turns of a line, tells its status, what it wrote, its recording and
/// what its hub was told, and gives the recording as a file.
pub fn run_recorded(
    alloc: Global,
    line: &str,
    turns: &str,
    files: MemFiles,
    outside: Outside,
) -> Result<(String, HeldFile), NoMemory> {
    let words = words(alloc, line)?;
    let hub = hub_of(alloc, turns)?;
    let mut out = MemSink::new(alloc, 0, CallNos::new(alloc))?;
    let mut err = MemSink::new(alloc, 100_000, CallNos::from_slice(alloc, &[outside.err])?)?;
    let failing = CallNos::from_slice(alloc, &[outside.record])?;
    let sink = MemSink::new(alloc, outside.record_room, failing)?;
    let (status, _, hub, sink) = faucet_recorded(
        alloc, &words, files, hub, sink, &mut out, &mut err,
    );
    let mut text = format!(in alloc; " => {status}")?;
    put_written(alloc, &mut text, "err", err.as_slice())?;
    put_written(alloc, &mut text, "recording", sink.as_slice())?;
    put_told(alloc, &mut text, hub.story())?;
    let flight = HeldFile {
        name: Text::from_str(alloc, FLIGHT)?,
        bytes: Bytes::from_slice(alloc, sink.as_slice())?,
    };
    Ok((text, flight))
}
