use crate::clock::Clock;
use fg_outside::{
    CallNos, Files, Folder, Folders, Happening, HeldFile, HeldFiles, Hub, MemFiles, Said,
    SureFiles, Turn,
};
use net_base::{Bytes, NoMemory, Text};
use std::alloc::Global;
use std::process::Abort;
use std::test::Fail;
use watch_hub::Watch;

// What a turn is to be.
#[derive(Drop)]
enum Want {
    At(u64),
    Reload(&'static [u8]),
    Done,
    Failed,
}

use Want::{At, Done, Failed, Reload};

// The main file is looked at every 10 ms, and had the text `a: 1` at first.
#[derive(Drop)]
struct Case {
    what: &'static str,
    // The files that are there after each refresh but the first, which comes before any look.
    folders: &'static [&'static [(&'static str, &'static [u8])]],
    moments: &'static [u64],
    fails: bool,
    turns: &'static [Want],
}

fn folder(alloc: Global, files: &[(&str, &[u8])]) -> Result<Folder, NoMemory> {
    let mut held = HeldFiles::new(alloc);
    for (name, bytes) in files {
        let name = Text::from_str(alloc, name)?;
        let bytes = Bytes::from_slice(alloc, bytes)?;
        held.push(HeldFile { name, bytes })?;
    }
    Ok(Folder { held })
}

fn folders(alloc: Global, all: &[&[(&str, &[u8])]]) -> Result<Folders, NoMemory> {
    let mut made = Folders::new(alloc);
    made.push(folder(alloc, &[])?)?;
    for files in all {
        made.push(folder(alloc, files)?)?;
    }
    Ok(made)
}

fn watch<F: Files + Drop>(
    alloc: Global,
    files: F,
    moments: &'static [u64],
    fails: bool,
) -> Result<Watch<Clock, F>, NoMemory> {
    let name = Text::from_str(alloc, "main")?;
    let first = Bytes::from_slice(alloc, b"a: 1\n")?;
    let clock = Clock::new(moments, fails);
    Ok(Watch::new(alloc, clock, files, name, first, 10))
}

fn is_wanted(turn: &Turn, want: &Want) -> bool {
    match (turn, want) {
        (Turn::Happened(Happening::Moment(moment)), At(at)) => *moment == *at,
        (Turn::Happened(Happening::Reload(text)), Reload(bytes)) => text.as_slice() == *bytes,
        (Turn::Done, Done) => true,
        (Turn::Failed, Failed) => true,
        _ => false,
    }
}

// Whether the hub gives just these turns.
fn gives<H: Hub>(hub: &mut H, turns: &[Want]) -> bool {
    for want in turns {
        if !is_wanted(&hub.turn(), want) {
            return false;
        }
    }
    true
}

const CASES: [Case; 10] = [
    Case {
        what: "a look comes 10 ms after the last, and the first at 10 ms",
        folders: &[
            &[("main", b"a: 2")],
            &[("main", b"a: 3")],
            &[("main", b"a: 4")],
        ],
        moments: &[0, 9, 10, 11, 19, 25, 34, 35],
        fails: false,
        turns: &[
            At(0),
            At(9),
            At(10),
            Reload(b"a: 2\n"),
            At(11),
            At(19),
            At(25),
            Reload(b"a: 3\n"),
            At(34),
            At(35),
            Reload(b"a: 4\n"),
            Done,
        ],
    },
    Case {
        what: "a look that finds the same text counts as one",
        folders: &[
            &[("main", b"{a: 1}")],
            &[("main", b"a: 1 # one")],
            &[("main", b"a: 2")],
        ],
        moments: &[10, 15, 20, 29, 30],
        fails: false,
        turns: &[
            At(10),
            At(15),
            At(20),
            At(29),
            At(30),
            Reload(b"a: 2\n"),
            Done,
        ],
    },
    Case {
        what: "a moment that falls is no look",
        folders: &[&[("main", b"a: 2")], &[("main", b"a: 3")]],
        moments: &[20, 5, 29, 30],
        fails: false,
        turns: &[
            At(20),
            Reload(b"a: 2\n"),
            At(5),
            At(29),
            At(30),
            Reload(b"a: 3\n"),
            Done,
        ],
    },
    Case {
        what: "a file goes and comes back, as it was and changed",
        folders: &[&[], &[("main", b"a: 1")], &[], &[("main", b"a: 2")]],
        moments: &[10, 20, 30, 40],
        fails: false,
        turns: &[At(10), At(20), At(30), At(40), Reload(b"a: 2\n"), Done],
    },
    Case {
        what: "an include changes, and goes",
        folders: &[
            &[("main", b"include: [more]"), ("more", b"a: 1")],
            &[("main", b"include: [more]"), ("more", b"a: 2")],
            &[("main", b"include: [more]")],
            &[("main", b"include-optional: [more]")],
        ],
        moments: &[10, 20, 30, 40],
        fails: false,
        turns: &[
            At(10),
            At(20),
            Reload(b"a: 2\n"),
            At(30),
            At(40),
            Reload(b"{}\n"),
            Done,
        ],
    },
    Case {
        what: "a text that can't be read is told as it stands, once",
        folders: &[
            &[("main", b"a: [1")],
            &[("main", b"a: [1")],
            &[("main", b"a: 1")],
        ],
        moments: &[10, 20, 30],
        fails: false,
        turns: &[
            At(10),
            Reload(b"a: [1"),
            At(20),
            At(30),
            Reload(b"a: 1\n"),
            Done,
        ],
    },
    Case {
        what: "the main file is told where an include is refused",
        folders: &[
            &[("main", b"include: [more]"), ("more", b"a: [1")],
            &[
                ("main", b"include: [more]\nvlans: {b: 1}"),
                ("more", b"vlans: {b: 2}"),
            ],
            &[("main", b"include: [main]")],
        ],
        moments: &[10, 20, 30],
        fails: false,
        turns: &[
            At(10),
            Reload(b"include: [more]"),
            At(20),
            Reload(b"include: [more]\nvlans: {b: 1}"),
            At(30),
            Reload(b"include: [main]"),
            Done,
        ],
    },
    Case {
        what: "a tree that its keys or the checks refuse is told as any other",
        folders: &[
            &[("main", b"bogus: 1")],
            &[(
                "main",
                b"dps: {a: {dp_id: 1, interfaces: {1: {native_vlan: b}}}}",
            )],
        ],
        moments: &[10, 20],
        fails: false,
        turns: &[
            At(10),
            Reload(b"bogus: 1\n"),
            At(20),
            Reload(
                b"dps:\n  a:\n    dp_id: 1\n    interfaces:\n      1:\n        native_vlan: b\n",
            ),
            Done,
        ],
    },
    Case {
        what: "a reload comes before the hub fails",
        folders: &[&[("main", b"a: 2")]],
        moments: &[10],
        fails: true,
        turns: &[At(10), Reload(b"a: 2\n"), Failed, Failed],
    },
    Case {
        what: "no moment, no look",
        folders: &[&[("main", b"a: 2")]],
        moments: &[],
        fails: false,
        turns: &[Done, Done],
    },
];

#[test]
fn turns_and_looks(rt: HostRuntime) -> Result<(), Fail> {
    let alloc = rt.alloc();
    for case in &CASES {
        let files = SureFiles::new(folders(alloc, case.folders)?);
        let mut hub = watch(alloc, files, case.moments, case.fails)?;
        assert!(rt; gives(&mut hub, case.turns), "{}", case.what);
    }
    Ok(())
}

// A look reads the file by one call for its bytes and one for its end. The first look fails at once, the second at the end.
#[test]
fn a_failed_look_is_passed_over(rt: HostRuntime) -> Result<(), Fail> {
    let alloc = rt.alloc();
    let all = folders(alloc, &[&[("main", b"a: 2")], &[("main", b"a: 3")]])?;
    let files = MemFiles::new(all, CallNos::from_slice(alloc, &[1, 3])?);
    let mut hub = watch(alloc, files, &[10, 19, 20, 30], false)?;
    let turns = [At(10), At(19), At(20), At(30), Reload(b"a: 3\n"), Done];
    assert!(rt; gives(&mut hub, &turns));
    assert!(rt; hub.say(1, b"hello") == Said::Gone);
    hub.close(1);
    let (mut clock, _) = hub.into_parts();
    assert!(rt; gives(&mut clock, &[Done]));
    Ok(())
}

// The text of the reload behind the first look at a file with these bytes.
fn reloaded(rt: &impl Abort, alloc: Global, bytes: Bytes) -> Result<Bytes, NoMemory> {
    let name = Text::from_str(alloc, "main")?;
    let mut held = HeldFiles::new(alloc);
    held.push(HeldFile { name, bytes })?;
    let mut all = Folders::new(alloc);
    all.push(Folder { held })?;
    let mut hub = watch(alloc, SureFiles::new(all), &[10], false)?;
    assert!(rt; gives(&mut hub, &[At(10)]));
    match hub.turn() {
        Turn::Happened(Happening::Reload(text)) => Ok(text),
        _ => Ok(Bytes::new(alloc)),
    }
}

#[test]
fn long_texts_are_told_as_far_as_they_show_that_they_are_too_long(
    rt: HostRuntime,
) -> Result<(), Fail> {
    let alloc = rt.alloc();
    // Of a file that is too long, a byte more than may be.
    let mut bytes = Bytes::new(alloc);
    for _ in 0..200_000 {
        bytes.append(b"a: 1 #")?;
    }
    assert!(rt; reloaded(&rt, alloc, bytes)?.len() == 1_048_577);
    // A tree whose canonical text is too long: each item has an indent there.
    let mut bytes = Bytes::from_slice(alloc, b"a:\n")?;
    for _ in 0..200_000 {
        bytes.append(b"- 1\n")?;
    }
    assert!(rt; reloaded(&rt, alloc, bytes)?.len() == 1_200_003);
    Ok(())
}
