use crate::script::{It, Script, Told, bytes_in, happening, links};
use crate::words::Words;
use It::{Ends, Hears, Loads, Opens, Shows};
use fg_outside::{Happening, Hub, Said, Turn};
use net_base::NoMemory;
use probe_hub::ProbeHub;
use std::alloc::Global;
use std::test::Fail;

// Messages of a switch and of its user, in hexadecimal, worked out from OpenFlow 1.3, 7, and IEEE 802.1AB.

const HELLO: &[&str] = &["0400000800000001"];

// A FEATURES_REPLY of datapath 1 with 254 tables.
const FEATURES: &[&str] = &[
    "04060020000000020000000000000001",
    "00000000fe0000000000000000000000",
];

// The request for the ports' descriptions, and the reply with port 1 up, with the transaction id 3.
const ASK: &[&str] = &["0412001000000003000d000000000000"];

const PORTS: &[&str] = &[
    "0413005000000003000d000000000000",
    "00000001000000000200000000010000",
    "00000000000000000000000000000000",
    "0000000000000000",
    "000000000000000000000000000000000000000000000000",
];

// A PORT_STATUS of the switch by which port 1 is up, in two parts.
const STATUS_FRONT: &[&str] = &["040c0050000000070200000000000000", "0000000100000000020000"];

const STATUS_REST: &[&str] = &[
    "0000010000",
    "00000000000000000000000000000000",
    "0000000000000000",
    "000000000000000000000000000000000000000000000000",
];

// A PORT_STATUS of the switch by which port 1 is up, by which it is down, and by which it is gone.
const STATUS_UP: &[&str] = &[
    "040c0050000000070200000000000000",
    "00000001000000000200000000010000",
    "00000000000000000000000000000000",
    "0000000000000000",
    "000000000000000000000000000000000000000000000000",
];

const STATUS_DOWN: &[&str] = &[
    "040c0050000000070200000000000000",
    "00000001000000000200000000010000",
    "00000000000000000000000000000000",
    "0000000000000001",
    "000000000000000000000000000000000000000000000000",
];

const STATUS_GONE: &[&str] = &[
    "040c0050000000070100000000000000",
    "00000001000000000200000000010000",
    "00000000000000000000000000000000",
    "0000000000000000",
    "000000000000000000000000000000000000000000000000",
];

// An ECHO_REQUEST of 12 bytes in two parts, and one behind it.
const ECHO_FRONT: &[&str] = &["0402000c"];

const ECHO_REST: &[&str] = &["00000009aabbccdd"];

const ECHO: &[&str] = &["040200080000000a"];

const ECHO_REST_AND_ECHO: &[&str] = &["00000009aabbccdd", "040200080000000a"];

// A PACKET_IN on port 1 with the probe of datapath 2, port 1.
const PROBE: &[&str] = &[
    "040a005000000004ffffffff0026000000000000",
    "000000000001000c800000040000000100000000",
    "00000180c200000e0e000000000188cc0209070000000000000002",
    "040507000000010602000f0000",
];

// The same with the probe of datapath 3.
const OTHER_PROBE: &[&str] = &[
    "040a005000000004ffffffff0026000000000000",
    "000000000001000c800000040000000100000000",
    "00000180c200000e0e000000000188cc0209070000000000000003",
    "040507000000010602000f0000",
];

// The probe of datapath 2, with the front of an ECHO_REQUEST behind it.
const PROBE_AND_ECHO_FRONT: &[&str] = &[
    "040a005000000004ffffffff0026000000000000",
    "000000000001000c800000040000000100000000",
    "00000180c200000e0e000000000188cc0209070000000000000002",
    "040507000000010602000f0000",
    "0402000c",
];

// All that datapath 2 says at first in one piece: HELLO, what it is, and its ports, before it was asked for any of it.
const INTRODUCTION: &[&str] = &[
    "0400000800000001",
    "04060020000000020000000000000002",
    "00000000fe0000000000000000000000",
    "0413005000000003000d000000000000",
    "00000001000000000200000000010000",
    "00000000000000000000000000000000",
    "0000000000000000",
    "000000000000000000000000000000000000000000000000",
];

// Port 1 is told down, and up again.
const DOWN: &[&str] = &[
    "040c0050000000000200000000000000",
    "00000001000000000000000000000000",
    "00000000000000000000000000000000",
    "0000000000000001",
    "000000000000000000000000000000000000000000000000",
];

const UP: &[&str] = &[
    "040c0050000000000200000000000000",
    "00000001000000000000000000000000",
    "00000000000000000000000000000000",
    "0000000000000000",
    "000000000000000000000000000000000000000000000000",
];

// The message by which datapath 1 sends the probe of port 1, which counts for 15 seconds.
const SEND: &[&str] = &[
    "040d004e00000000fffffffffffffffd0010000000000000",
    "00000010000000010000000000000000",
    "0180c200000e0e000000000188cc",
    "0209070000000000000001",
    "040507000000010602000f0000",
];

// The same of datapath 2.
const SEND_FROM_2: &[&str] = &[
    "040d004e00000000fffffffffffffffd0010000000000000",
    "00000010000000010000000000000000",
    "0180c200000e0e000000000188cc",
    "0209070000000000000002",
    "040507000000010602000f0000",
];

// What is seen at the user's side, or done there.
#[derive(Clone, Copy)]
enum Seen {
    // A turn gives this.
    Gets(It),
    // The user asks for the ports' descriptions on a connection.
    Asks(u32),
    // The user closes a connection.
    Closes(u32),
}

use Seen::{Asks, Closes, Gets};

#[derive(Clone, Copy)]
struct Case {
    what: &'static str,
    // What happens at the hub behind the setup of connection 1, at moment 10,000.
    turns: &'static [It],
    // What is seen behind that, before the hub is done.
    seen: &'static [Seen],
    // What the hub is told in all, and on which connections.
    told: &'static [(u32, &'static [&'static str])],
}

// The setup of a connection, and the moment 10,000.
const SETUP: [It; 5] = [
    Opens(1),
    Hears(1, HELLO),
    Hears(1, FEATURES),
    Hears(1, PORTS),
    Shows(10_000),
];

fn is_same(it: &Happening, other: &Happening) -> bool {
    match (it, other) {
        (Happening::Opened(conn), Happening::Opened(number)) => conn == number,
        (
            Happening::Heard { conn, piece },
            Happening::Heard {
                conn: number,
                piece: bytes,
            },
        ) => conn == number && piece.as_slice() == bytes.as_slice(),
        (Happening::Closed { conn, .. }, Happening::Closed { conn: number, .. }) => conn == number,
        (Happening::Moment(moment), Happening::Moment(at)) => moment == at,
        (Happening::Reload(text), Happening::Reload(bytes)) => {
            text.as_slice() == bytes.as_slice()
        }
        _ => false,
    }
}

// A hub that gives the setup and then these.
fn make_hub(alloc: Global, turns: &'static [It]) -> Result<ProbeHub<Script, Words>, NoMemory> {
    let words = Words {
        watched: links(alloc, true)?,
        free: links(alloc, false)?,
    };
    let mut hub = ProbeHub::new(alloc, Script::new(alloc, &SETUP, turns), words);
    hub.set(links(alloc, true)?)?;
    Ok(hub)
}

fn gets(alloc: Global, hub: &mut ProbeHub<Script, Words>, it: It) -> Result<bool, NoMemory> {
    let want = happening(alloc, it)?;
    match hub.turn() {
        Turn::Happened(it) => Ok(is_same(&it, &want)),
        _ => Ok(false),
    }
}

fn sees(alloc: Global, hub: &mut ProbeHub<Script, Words>, seen: Seen) -> Result<bool, NoMemory> {
    match seen {
        Gets(it) => gets(alloc, hub, it),
        Asks(conn) => {
            let ask = bytes_in(alloc, ASK)?;
            Ok(hub.say(conn, ask.as_slice()) == Said::Taken)
        }
        Closes(conn) => {
            hub.close(conn);
            Ok(true)
        }
    }
}

fn sees_all(
    alloc: Global,
    hub: &mut ProbeHub<Script, Words>,
    all: &[Seen],
) -> Result<bool, NoMemory> {
    for seen in all {
        if !sees(alloc, hub, *seen)? {
            return Ok(false);
        }
    }
    Ok(true)
}

fn is_told(alloc: Global, told: &[Told], want: &[(u32, &[&str])]) -> Result<bool, NoMemory> {
    if told.len() != want.len() {
        return Ok(false);
    }
    for (it, (conn, words)) in told.iter().zip(want) {
        if it.conn != *conn || it.bytes.as_slice() != bytes_in(alloc, words)?.as_slice() {
            return Ok(false);
        }
    }
    Ok(true)
}

// The user asks for the ports once the switch said what it is; the first probe is said with the moment 10,000.
const SET_UP: [Seen; 6] = [
    Gets(Opens(1)),
    Gets(Hears(1, HELLO)),
    Gets(Hears(1, FEATURES)),
    Asks(1),
    Gets(Hears(1, PORTS)),
    Gets(Shows(10_000)),
];

const CASES: [Case; 17] = [
    Case {
        what: "a port is lost once nothing came for its window, and comes back with a probe",
        turns: &[
            Hears(1, PROBE),
            Shows(24_999),
            Shows(25_000),
            Shows(26_000),
            Hears(1, PROBE),
        ],
        seen: &[
            Gets(Hears(1, PROBE)),
            Gets(Shows(24_999)),
            Gets(Shows(25_000)),
            Gets(Hears(1, DOWN)),
            Gets(Shows(26_000)),
            Gets(Hears(1, PROBE)),
            Gets(Hears(1, UP)),
        ],
        told: &[(1, ASK), (1, SEND), (1, SEND)],
    },
    Case {
        what: "the window begins when the port is told up; a probe is said every 5 seconds",
        turns: &[Shows(14_999), Shows(15_000)],
        seen: &[
            Gets(Shows(14_999)),
            Gets(Shows(15_000)),
            Gets(Hears(1, DOWN)),
        ],
        told: &[(1, ASK), (1, SEND), (1, SEND)],
    },
    Case {
        what: "a probe of another datapath counts for nothing",
        turns: &[Hears(1, OTHER_PROBE), Shows(15_000)],
        seen: &[
            Gets(Hears(1, OTHER_PROBE)),
            Gets(Shows(15_000)),
            Gets(Hears(1, DOWN)),
        ],
        told: &[(1, ASK), (1, SEND), (1, SEND)],
    },
    Case {
        what: "behind a frame that is begun it is told at its end, and what follows is cut off",
        turns: &[
            Hears(1, ECHO_FRONT),
            Shows(15_000),
            Hears(1, ECHO_REST_AND_ECHO),
        ],
        seen: &[
            Gets(Hears(1, ECHO_FRONT)),
            Gets(Shows(15_000)),
            Gets(Hears(1, ECHO_REST)),
            Gets(Hears(1, DOWN)),
            Gets(Hears(1, ECHO)),
        ],
        told: &[(1, ASK), (1, SEND), (1, SEND)],
    },
    Case {
        what: "it isn't told where that frame tells the port",
        turns: &[
            Hears(1, STATUS_FRONT),
            Shows(15_000),
            Hears(1, STATUS_REST),
            Shows(29_999),
        ],
        seen: &[
            Gets(Hears(1, STATUS_FRONT)),
            Gets(Shows(15_000)),
            Gets(Hears(1, STATUS_REST)),
            Gets(Shows(29_999)),
        ],
        told: &[(1, ASK), (1, SEND), (1, SEND), (1, SEND)],
    },
    Case {
        what: "nothing is told on a connection that ended",
        turns: &[Hears(1, ECHO_FRONT), Shows(15_000), Ends(1), Shows(30_000)],
        seen: &[
            Gets(Hears(1, ECHO_FRONT)),
            Gets(Shows(15_000)),
            Gets(Ends(1)),
            Gets(Shows(30_000)),
        ],
        told: &[(1, ASK), (1, SEND), (1, SEND)],
    },
    Case {
        what: "nor on one that its user closed at the end of the frame, and nothing that follows is given",
        turns: &[
            Hears(1, ECHO_FRONT),
            Shows(15_000),
            Hears(1, ECHO_REST_AND_ECHO),
        ],
        seen: &[
            Gets(Hears(1, ECHO_FRONT)),
            Gets(Shows(15_000)),
            Gets(Hears(1, ECHO_REST)),
            Closes(1),
        ],
        told: &[(1, ASK), (1, SEND), (1, SEND)],
    },
    Case {
        what: "a configuration that doesn't watch the link ends the loss; one that does finds it over",
        turns: &[
            Shows(15_000),
            Loads(false),
            Shows(15_001),
            Loads(true),
            Shows(15_002),
        ],
        seen: &[
            Gets(Shows(15_000)),
            Gets(Hears(1, DOWN)),
            Gets(Loads(false)),
            Gets(Hears(1, UP)),
            Gets(Shows(15_001)),
            Gets(Loads(true)),
            Gets(Shows(15_002)),
            Gets(Hears(1, DOWN)),
        ],
        told: &[(1, ASK), (1, SEND), (1, SEND)],
    },
    Case {
        what: "a loss and its end both wait for the frame's end",
        turns: &[
            Hears(1, &["040a0050"]),
            Shows(15_000),
            Hears(
                1,
                &[
                    "00000004ffffffff0026000000000000",
                    "000000000001000c800000040000000100000000",
                    "00000180c200000e0e000000000188cc0209070000000000000002",
                    "040507000000010602000f0000",
                ],
            ),
        ],
        seen: &[
            Gets(Hears(1, &["040a0050"])),
            Gets(Shows(15_000)),
            Gets(Hears(
                1,
                &[
                    "00000004ffffffff0026000000000000",
                    "000000000001000c800000040000000100000000",
                    "00000180c200000e0e000000000188cc0209070000000000000002",
                    "040507000000010602000f0000",
                ],
            )),
            Gets(Hears(1, DOWN)),
            Gets(Hears(1, UP)),
        ],
        told: &[(1, ASK), (1, SEND), (1, SEND)],
    },
    Case {
        what: "so do a loss and a configuration that ends it",
        turns: &[
            Hears(1, ECHO_FRONT),
            Shows(15_000),
            Loads(false),
            Hears(1, ECHO_REST),
        ],
        seen: &[
            Gets(Hears(1, ECHO_FRONT)),
            Gets(Shows(15_000)),
            Gets(Loads(false)),
            Gets(Hears(1, ECHO_REST)),
            Gets(Hears(1, DOWN)),
            Gets(Hears(1, UP)),
        ],
        told: &[(1, ASK), (1, SEND), (1, SEND)],
    },
    Case {
        what: "what a probe brings back is told at the end of a frame that is begun behind it",
        turns: &[
            Shows(15_000),
            Hears(1, PROBE_AND_ECHO_FRONT),
            Hears(1, ECHO_REST_AND_ECHO),
        ],
        seen: &[
            Gets(Shows(15_000)),
            Gets(Hears(1, DOWN)),
            Gets(Hears(1, PROBE_AND_ECHO_FRONT)),
            Gets(Hears(1, ECHO_REST)),
            Gets(Hears(1, UP)),
            Gets(Hears(1, ECHO)),
        ],
        told: &[(1, ASK), (1, SEND), (1, SEND)],
    },
    Case {
        what: "a port that is told up isn't lost any more, of which nothing is told, and has a new window",
        turns: &[
            Shows(15_000),
            Hears(1, STATUS_UP),
            Shows(29_999),
            Shows(30_000),
        ],
        seen: &[
            Gets(Shows(15_000)),
            Gets(Hears(1, DOWN)),
            Gets(Hears(1, STATUS_UP)),
            Gets(Shows(29_999)),
            Gets(Shows(30_000)),
            Gets(Hears(1, DOWN)),
        ],
        told: &[(1, ASK), (1, SEND), (1, SEND), (1, SEND)],
    },
    Case {
        what: "one that is told down comes back with no probe and doesn't get lost; it is probed",
        turns: &[
            Shows(15_000),
            Hears(1, STATUS_DOWN),
            Hears(1, PROBE),
            Shows(40_000),
        ],
        seen: &[
            Gets(Shows(15_000)),
            Gets(Hears(1, DOWN)),
            Gets(Hears(1, STATUS_DOWN)),
            Gets(Hears(1, PROBE)),
            Gets(Shows(40_000)),
        ],
        told: &[(1, ASK), (1, SEND), (1, SEND), (1, SEND)],
    },
    Case {
        what: "nor does one that is gone",
        turns: &[
            Shows(15_000),
            Hears(1, STATUS_GONE),
            Hears(1, PROBE),
            Shows(40_000),
        ],
        seen: &[
            Gets(Shows(15_000)),
            Gets(Hears(1, DOWN)),
            Gets(Hears(1, STATUS_GONE)),
            Gets(Hears(1, PROBE)),
            Gets(Shows(40_000)),
        ],
        told: &[(1, ASK), (1, SEND), (1, SEND), (1, SEND)],
    },
    Case {
        what: "a new connection begins with no loss; the next probe counts from the last one",
        turns: &[
            Shows(15_000),
            Ends(1),
            Opens(1),
            Hears(1, HELLO),
            Hears(1, FEATURES),
            Hears(1, PORTS),
            Shows(19_999),
            Shows(20_000),
            Shows(30_000),
        ],
        seen: &[
            Gets(Shows(15_000)),
            Gets(Hears(1, DOWN)),
            Gets(Ends(1)),
            Gets(Opens(1)),
            Gets(Hears(1, HELLO)),
            Gets(Hears(1, FEATURES)),
            Asks(1),
            Gets(Hears(1, PORTS)),
            Gets(Shows(19_999)),
            Gets(Shows(20_000)),
            Gets(Shows(30_000)),
            Gets(Hears(1, DOWN)),
        ],
        told: &[
            (1, ASK),
            (1, SEND),
            (1, SEND),
            (1, ASK),
            (1, SEND),
            (1, SEND),
        ],
    },
    Case {
        what: "no probe is said where the link isn't watched",
        turns: &[Loads(false), Shows(20_000), Loads(true), Shows(20_001)],
        seen: &[
            Gets(Loads(false)),
            Gets(Shows(20_000)),
            Gets(Loads(true)),
            Gets(Shows(20_001)),
            Gets(Hears(1, DOWN)),
        ],
        told: &[(1, ASK), (1, SEND), (1, SEND)],
    },
    Case {
        what: "probes go by datapath, and what is told by connection",
        turns: &[
            Opens(2),
            Hears(2, INTRODUCTION),
            Shows(25_000),
            Shows(25_001),
        ],
        seen: &[
            Gets(Opens(2)),
            Gets(Hears(2, INTRODUCTION)),
            Asks(2),
            Gets(Shows(25_000)),
            Gets(Hears(1, DOWN)),
            Gets(Hears(2, DOWN)),
            Gets(Shows(25_001)),
        ],
        told: &[(1, ASK), (1, SEND), (2, ASK), (1, SEND), (2, SEND_FROM_2)],
    },
];

#[test]
fn losses_and_cuts(rt: HostRuntime) -> Result<(), Fail> {
    let alloc = rt.alloc();
    for case in &CASES {
        let mut hub = make_hub(alloc, case.turns)?;
        assert!(rt; sees_all(alloc, &mut hub, &SET_UP)?, "{}", case.what);
        assert!(rt; sees_all(alloc, &mut hub, case.seen)?, "{}", case.what);
        assert!(rt; matches!(hub.turn(), Turn::Done), "{}", case.what);
        let (script, _) = hub.into_parts();
        assert!(rt;
            is_told(alloc, script.told.as_slice(), case.told)?,
            "{}",
            case.what
        );
    }
    Ok(())
}
