//! Runs over a link of a poller in memory, and what the link was given.

ghost use Rattle.std.specs.Prelude.{◌≤◌, IfOk};
ghost use Rattle.fg_links.specs.Nexts.{links_in};

use crate::bench::Outside;
use crate::runs::{answer, put_messages};
use fg_links::{MemLink, MemNext, MemNexts, MemPoller};
use fg_outside::{CallNos, MemFiles};
use link_hub::LinkHub;
use net_base::NoMemory;
use std::alloc::Global;
use test_lines::bytes_of;

/// What a poller gives that opens a link and stops.
fn one_link(alloc: Global, link: MemLink) -> Result<MemNexts<MemLink>, NoMemory>
    ensures { IfOk result (λ nexts. links_in nexts ≤ 1) }
{
    let mut nexts = MemNexts::new(alloc);
    nexts.push(MemNext::New(link))?;
    Ok(nexts)
}

/// What a poller gives that opens a link, which is ready, then a moment, and then the link is ready again.
fn a_link_that_is_heard(alloc: Global, link: MemLink) -> Result<MemNexts<MemLink>, NoMemory>
    ensures { IfOk result (λ nexts. links_in nexts ≤ 1) }
{
    let mut nexts = MemNexts::new(alloc);
    nexts.push(MemNext::New(link))?;
    nexts.push(MemNext::Ready(1))?;
    nexts.push(MemNext::Moment(1_000))?;
    nexts.push(MemNext::Ready(1))?;
    Ok(nexts)
}

/// A number alone as a list of calls; of any other text none.
fn call_of(alloc: Global, text: &str) -> Result<CallNos, NoMemory> {
    match text.parse::<u64>() {
        Ok(number) => CallNos::from_slice(alloc, &[number]),
        Err(_) => Ok(CallNos::new(alloc)),
    }
}

/// A link with room for 10,000 bytes: the digits of its input, behind a slash the call that fails, and behind a
/// further one the call that waits.
fn link_of(alloc: Global, text: &str) -> Result<MemLink, NoMemory> {
    let mut parts = text.split('/');
    let input = bytes_of(alloc, parts.next().unwrap_or(""))?;
    let fail = call_of(alloc, parts.next().unwrap_or(""))?;
    let wait = call_of(alloc, parts.next().unwrap_or(""))?;
    MemLink::new(alloc, input, 10_000, fail, wait)
}

/// A run over a poller that gives this, of which a call fails.
fn run_links(
    alloc: Global,
    line: &str,
    files: MemFiles,
    outside: Outside,
    nexts: MemNexts<MemLink>,
    fail: CallNos,
) -> Result<String, NoMemory>
    requires { links_in nexts ≤ 1 }
{
    let poller = MemPoller::new(alloc, nexts, 10, fail)?;
    let (mut text, hub) = answer(alloc, line, files, LinkHub::new(alloc, poller), outside)?;
    if let Some(link) = hub.link(1) {
        text.push_str("\n link 1 holds")?;
        put_messages(alloc, &mut text, link.written())?;
    }
    Ok(text)
}

/// A run over a link that opens, and nothing more, where this call of the poller fails.
pub fn run_link(
    alloc: Global,
    line: &str,
    files: MemFiles,
    outside: Outside,
    fail: u64,
) -> Result<String, NoMemory> {
    let nexts = one_link(alloc, link_of(alloc, "")?)?;
    let fail = CallNos::from_slice(alloc, &[fail])?;
    run_links(alloc, line, files, outside, nexts, fail)
}

/// A run over a link that is heard: `FAIL LINK` has the call of the poller that fails, if one does, and the link.
pub fn run_heard(
    alloc: Global,
    line: &str,
    files: MemFiles,
    outside: Outside,
    given: &str,
) -> Result<String, NoMemory> {
    let (fail, link) = given.split_once(' ').unwrap_or((given, ""));
    let nexts = a_link_that_is_heard(alloc, link_of(alloc, link)?)?;
    let fail = call_of(alloc, fail)?;
    run_links(alloc, line, files, outside, nexts, fail)
}
