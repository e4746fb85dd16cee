//! Links, pollers and hubs in memory, used through their traits.

ghost use Rattle.std.specs.Prelude.{◌≤◌, IfOk};
ghost use Rattle.fg_links.specs.Nexts.{links_in};

use fg_links::{
    Gave, Link, MemHub, MemLink, MemNext, MemNexts, MemPoller, Next, Poller, StoryStep, SureHub,
    SureLink, SurePoller, Told, Took,
};
use fg_outside::{CallNos, EndCause, Happening, Happenings, Hub, Said, Turn};
use net_base::{Bytes, NoMemory};
use std::alloc::Global;
use std::test::Fail;

// What eight reads with buffers of at most this size give, and the letters of their answers: `s` for
// some bytes, `n` for none yet, `e` for the end, `f` for a fault.
fn eight_reads<L: Link>(
    alloc: Global,
    link: &mut L,
    size: usize,
) -> Result<(Bytes, Bytes), NoMemory> {
    let mut bytes = Bytes::new(alloc);
    let mut answers = Bytes::new(alloc);
    for _ in 0..8 {
        let mut buf = [0; 4];
        let buf = &mut buf[..size.min(4)];
        answers.push(match link.read(buf) {
            Took::Some(n) => {
                bytes.append(&buf[..n])?;
                b's'
            }
            Took::NotYet => b'n',
            Took::End => b'e',
            Took::Failed => b'f',
        })?;
    }
    Ok((bytes, answers))
}

#[test]
fn links_give_their_input_in_order(rt: HostRuntime) -> Result<(), Fail> {
    let alloc = rt.alloc();
    // The size of the buffers, what eight of them hold of `vlans`, and the answers with and without
    // faults at the calls 1 and 3; call 2 has none yet.
    let cases: [(usize, &[u8], &[u8], &[u8]); 3] = [
        (4, b"vlans", b"fnfsseee", b"snseeeee"),
        (1, b"vlans", b"fnfsssss", b"snssssee"),
        (0, b"", b"fnfsssss", b"snssssss"),
    ];
    for (size, want, answers, sure_answers) in cases {
        let not_yet = CallNos::from_slice(alloc, &[2])?;
        let fail = CallNos::from_slice(alloc, &[1, 3])?;
        let input = Bytes::from_slice(alloc, b"vlans")?;
        let mut link = MemLink::new(alloc, input, 0, fail, not_yet)?;
        let (all, found) = eight_reads(alloc, &mut link, size)?;
        assert!(rt;
            all.as_slice() == want && found.as_slice() == answers,
            "{size}"
        );
        let not_yet = CallNos::from_slice(alloc, &[2])?;
        let input = Bytes::from_slice(alloc, b"vlans")?;
        let mut link = SureLink::new(alloc, input, 0, not_yet)?;
        let (all, found) = eight_reads(alloc, &mut link, size)?;
        assert!(rt;
            all.as_slice() == want && found.as_slice() == sure_answers,
            "{size}"
        );
    }
    Ok(())
}

#[test]
fn links_take_what_there_is_room_for(rt: HostRuntime) -> Result<(), Fail> {
    let alloc = rt.alloc();
    let fail = CallNos::from_slice(alloc, &[3])?;
    let not_yet = CallNos::from_slice(alloc, &[4])?;
    let input = Bytes::from_slice(alloc, b"vlans")?;
    let mut link = MemLink::new(alloc, input, 6, fail, not_yet)?;
    // Reads and writes are numbered together, and this read is the first call.
    assert!(rt; link.read(&mut [0; 2]) == Took::Some(2));
    let cases: [(&[u8], Gave); 6] = [
        (b"abc", Gave::Some(3)),
        (b"de", Gave::Failed),
        (b"de", Gave::NotYet),
        (b"defg", Gave::Some(3)),
        (b"h", Gave::Failed),
        (b"", Gave::Some(0)),
    ];
    for (piece, want) in cases {
        assert!(rt; link.write(piece) == want);
    }
    assert!(rt; link.written() == b"abcdef".as_slice());
    Ok(())
}

// The letters of six answers, with the numbers that they tell: `l` for a link, `r` for one that is
// ready, `m` for a moment, `s` for `Stop`, `f` for a fault.
fn six_answers<P: Poller>(poller: &mut P) -> [(u8, u64); 6] {
    let mut answers = [(0, 0); 6];
    for answer in &mut answers {
        *answer = match poller.next() {
            Next::New(_) => (b'l', 0),
            Next::Ready(link) => (b'r', u64::from(link)),
            Next::Moment(moment) => (b'm', moment),
            Next::Stop => (b's', 0),
            Next::Failed => (b'f', 0),
        };
    }
    answers
}

// A link, that it is ready, a moment, and another link.
fn nexts(alloc: Global) -> Result<MemNexts<SureLink>, NoMemory>
    ensures { IfOk result (λ it. links_in it ≤ 2) }
{
    let first = SureLink::new(alloc, Bytes::new(alloc), 0, CallNos::new(alloc))?;
    let second = SureLink::new(alloc, Bytes::new(alloc), 0, CallNos::new(alloc))?;
    let mut nexts = MemNexts::new(alloc);
    nexts.push(MemNext::New(first))?;
    nexts.push(MemNext::Ready(1))?;
    nexts.push(MemNext::Moment(5))?;
    nexts.push(MemNext::New(second))?;
    Ok(nexts)
}

#[test]
fn pollers_give_their_list_and_then_stop(rt: HostRuntime) -> Result<(), Fail> {
    let alloc = rt.alloc();
    let fail = CallNos::from_slice(alloc, &[2])?;
    let mut poller = MemPoller::new(alloc, nexts(alloc)?, 0, fail)?;
    let (link, ready, moment) = ((b'l', 0), (b'r', 1), (b'm', 5));
    let (stop, fault) = ((b's', 0), (b'f', 0));
    assert!(rt; six_answers(&mut poller) == [link, fault, ready, moment, link, stop]);
    let mut poller = SurePoller::new(alloc, nexts(alloc)?, 0)?;
    assert!(rt; six_answers(&mut poller) == [link, ready, moment, link, stop, stop]);
    Ok(())
}

#[test]
fn pollers_tell_what_they_were_told(rt: HostRuntime) -> Result<(), Fail> {
    let alloc = rt.alloc();
    let mut poller = SurePoller::new(alloc, nexts(alloc)?, 2)?;
    poller.quiet(7);
    poller.gone(9);
    assert!(rt; poller.told() == Some([Told::Quiet(7), Told::Gone(9)].as_slice()));
    poller.quiet(7);
    assert!(rt; poller.told().is_none());
    Ok(())
}

// The turns of a hub: the second, the fourth, and the last don't fit what is open then.
fn turns(alloc: Global) -> Result<Happenings, NoMemory> {
    let piece = Bytes::from_slice(alloc, b"hello")?;
    let late = Bytes::from_slice(alloc, b"late")?;
    let cause = EndCause::End;
    let mut turns = Happenings::new(alloc);
    turns.push(Happening::Opened(1))?;
    turns.push(Happening::Opened(1))?;
    turns.push(Happening::Opened(2))?;
    turns.push(Happening::Closed { conn: 3, cause })?;
    turns.push(Happening::Heard { conn: 1, piece })?;
    turns.push(Happening::Closed { conn: 1, cause })?;
    turns.push(Happening::Heard {
        conn: 1,
        piece: late,
    })?;
    Ok(turns)
}

// The letters of three turns, of a piece said on the connections 1 to 3, and, once connection 2 was
// closed, of three turns and that piece again: `o`, `h` and `c` for what opened, was heard or closed,
// `d` for `Done`, `f` for a fault, `t` for a piece that was taken, `g` for one that wasn't.
fn answers_of<H: Hub>(alloc: Global, hub: &mut H) -> Result<Bytes, NoMemory> {
    let mut answers = Bytes::new(alloc);
    for conn in [0, 0, 0, 1, 2, 3, 9, 0, 0, 0, 1, 2, 3] {
        if conn == 9 {
            hub.close(2);
        } else if conn == 0 {
            answers.push(match hub.turn() {
                Turn::Happened(Happening::Opened(_)) => b'o',
                Turn::Happened(Happening::Heard { .. }) => b'h',
                Turn::Happened(_) => b'c',
                Turn::Done => b'd',
                Turn::Failed => b'f',
                Turn::Memory => b'm',
            })?;
        } else {
            answers.push(match hub.say(conn, b"hi") {
                Said::Taken => b't',
                Said::Gone => b'g',
                Said::Memory => b'm',
            })?;
        }
    }
    Ok(answers)
}

// The letters of a story: those of the turns, `s` for a piece said, `x` for a connection closed.
fn letters_of(alloc: Global, story: &[StoryStep]) -> Result<Bytes, NoMemory> {
    let mut letters = Bytes::new(alloc);
    for step in story {
        letters.push(match step {
            StoryStep::Gave(Happening::Opened(_)) => b'o',
            StoryStep::Gave(Happening::Heard { .. }) => b'h',
            StoryStep::Gave(_) => b'c',
            StoryStep::Said { .. } => b's',
            StoryStep::Closed(_) => b'x',
        })?;
    }
    Ok(letters)
}

#[test]
fn hubs_keep_their_story(rt: HostRuntime) -> Result<(), Fail> {
    let alloc = rt.alloc();
    let mut hub = SureHub::new(alloc, turns(alloc)?);
    assert!(rt; answers_of(alloc, &mut hub)?.as_slice() == b"oohttgcddggg".as_slice());
    assert!(rt; letters_of(alloc, hub.story())?.as_slice() == b"oohssxc".as_slice());
    let fail = CallNos::from_slice(alloc, &[2])?;
    let mut hub = MemHub::new(alloc, turns(alloc)?, fail);
    assert!(rt; answers_of(alloc, &mut hub)?.as_slice() == b"ofottghcdggg".as_slice());
    assert!(rt; letters_of(alloc, hub.story())?.as_slice() == b"oossxhc".as_slice());
    Ok(())
}
