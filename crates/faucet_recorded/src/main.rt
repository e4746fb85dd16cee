//! The program `faucet_recorded`: it hands the real words, files, streams, connections and a new file for the
//! recording to its top call.
#![tactic(auto)]

use answer::{answer_for_memory, answer_words};
use command_line::{Listen, RecordedServe, read_recorded_words};
use fg_outside::NoHub;
use link_hub::LinkHub;
use net_base::{Names, NoMemory, Text};
use real_links::MioPoller;
use real_outside::{NewFile, RealFiles, Stream, words_of};
use std::env;
use std::process::ExitCode;

mod answer;

/// Does what the words ask for, on the switches that connect where they are listened for.
fn run(rt: &HostRuntime, words: &Names) -> Result<ExitCode, NoMemory> {
    let mut out = Stream::new(rt.stdout());
    let mut err = Stream::new(rt.stderr());
    let files = RealFiles::new(rt);
    let alloc = rt.alloc();
    Ok(match read_recorded_words(alloc, words)? {
        Some(job) => {
            let RecordedServe {
                listen,
                record_file,
                ..
            } = job;
            let Listen { ip, port } = listen;
            let hub = LinkHub::new(alloc, MioPoller::new(rt, ip, port)?);
            let sink = NewFile::new(rt, record_file);
            answer_words(alloc, words, files, hub, sink, &mut out, &mut err).0
        }
        None => {
            let sink = NewFile::new(rt, Text::new(alloc));
            answer_words(alloc, words, files, NoHub, sink, &mut out, &mut err).0
        }
    })
}

fn main(rt: HostRuntime) -> ExitCode {
    let words = words_of(rt.alloc(), env::args(&rt));
    match words.and_then(|words| run(&rt, &words)) {
        Ok(code) => code,
        Err(_) => answer_for_memory(&mut Stream::new(rt.stderr())),
    }
}
