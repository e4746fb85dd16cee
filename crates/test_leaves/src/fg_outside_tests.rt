//! Files and sinks in memory, and what is read and written through their traits.

use fg_outside::{
    CallNos, EndCause, Failed, FileSource, Files, Folder, Folders, Happening, Happenings, HeldFile,
    HeldFiles, MemFiles, MemSink, MemSource, ReadRefused, Sink, Source, SureFiles, SureSink,
    SureSource, read_whole, write_all,
};
use net_base::{Bytes, Items, NoMemory, Text, TryCopy};
use std::alloc::Global;
use std::test::Fail;

// A sink that takes one byte at a time.
#[derive(Drop)]
struct OneByOne {
    sink: SureSink,
}

impl Sink for OneByOne {
    ghost use Rattle.fg_outside.specs.SinkInMemory.{taken_by, overflows_of};

    ghost wrote = { λ it. ⟦<SureSink as Sink>⟧.wrote it.sink };

    ghost faults = { λ it. ⟦<SureSink as Sink>⟧.faults it.sink };

    fn write(&mut self, piece: &[u8]) -> Result<usize, Failed> {
        let count = piece.len().min(1);
        self.sink.write(&piece[..count])
    }
}

fn file(alloc: Global, name: &str, bytes: &[u8]) -> Result<HeldFile, NoMemory> {
    Ok(HeldFile {
        name: Text::from_str(alloc, name)?,
        bytes: Bytes::from_slice(alloc, bytes)?,
    })
}

// First `main` twice and an empty `more`, then `more` alone.
fn two_folders(alloc: Global) -> Result<Folders, NoMemory> {
    let mut first = HeldFiles::new(alloc);
    first.push(file(alloc, "main", b"vlans")?)?;
    first.push(file(alloc, "main", b"other")?)?;
    first.push(file(alloc, "more", b"")?)?;
    let mut second = HeldFiles::new(alloc);
    second.push(file(alloc, "more", b"dps")?)?;
    let mut folders = Folders::new(alloc);
    folders.push(Folder { held: first })?;
    folders.push(Folder { held: second })?;
    folders.copy(alloc)
}

// What was read, or why not.
fn outcome(read: Result<Bytes, ReadRefused>, want: Result<&[u8], ReadRefused>) -> bool {
    match (read, want) {
        (Ok(bytes), Ok(want)) => bytes.as_slice() == want,
        (Err(refused), Err(want)) => refused == want,
        _ => false,
    }
}

// Whether the files are refreshed first, a name, how much is read at most, and what is answered.
const READS: [(bool, &str, usize, Result<&[u8], ReadRefused>); 9] = [
    (false, "main", 100, Ok(b"vlans")),
    (false, "main", 5, Ok(b"vlans")),
    (false, "main", 2, Ok(b"vl")),
    (false, "main", 0, Ok(b"")),
    (false, "more", 9, Ok(b"")),
    (false, "none", 0, Err(ReadRefused::Absent)),
    (true, "main", 9, Err(ReadRefused::Absent)),
    (false, "more", 9, Ok(b"dps")),
    (true, "more", 1, Ok(b"d")),
];

#[test]
fn files_are_read_whole_as_they_stand(rt: HostRuntime) -> Result<(), Fail> {
    let mut files = SureFiles::new(two_folders(rt.alloc())?);
    for (refreshed, name, most, want) in READS {
        if refreshed {
            files.refresh();
        }
        let read = read_whole(rt.alloc(), &mut files, name, most);
        assert!(rt; outcome(read, want), "{name} {most}");
    }
    Ok(())
}

#[test]
fn the_listed_reads_fail(rt: HostRuntime) -> Result<(), Fail> {
    let alloc = rt.alloc();
    let fail = CallNos::from_slice(alloc, &[2, 4])?;
    let mut files = MemFiles::new(two_folders(alloc)?, fail);
    // Reading past a file's end takes one call more, to find that it ends.
    let wants: [(usize, Result<&[u8], ReadRefused>); 4] = [
        (5, Ok(b"vlans")),
        (5, Err(ReadRefused::Failed)),
        (6, Err(ReadRefused::Failed)),
        (6, Ok(b"vlans")),
    ];
    for (most, want) in wants {
        let read = read_whole(alloc, &mut files, "main", most);
        assert!(rt; outcome(read, want), "{most}");
    }
    Ok(())
}

#[test]
fn the_listed_writes_fail_and_those_past_the_room(rt: HostRuntime) -> Result<(), Fail> {
    let fail = CallNos::from_slice(rt.alloc(), &[2])?;
    let mut sink = MemSink::new(rt.alloc(), 6, fail)?;
    for (piece, written) in [("abc", true), ("de", false), ("fg", true), ("hi", false)] {
        assert!(rt;
            write_all(&mut sink, piece.as_bytes()).is_ok() == written,
            "{piece}"
        );
    }
    assert!(rt; sink.as_slice() == b"abcfgh".as_slice());
    Ok(())
}

#[test]
fn a_piece_is_written_to_its_end(rt: HostRuntime) -> Result<(), Fail> {
    let mut slow = OneByOne {
        sink: SureSink::new(rt.alloc(), 9)?,
    };
    assert!(rt; write_all(&mut slow, b"abc").is_ok());
    assert!(rt; slow.sink.as_slice() == b"abc".as_slice());
    Ok(())
}

#[test]
fn happenings_are_copied(rt: HostRuntime) -> Result<(), Fail> {
    let alloc = rt.alloc();
    let piece = Bytes::from_slice(alloc, b"hello")?;
    let mut happenings: Happenings = Items::new(alloc);
    happenings.push(Happening::Heard { conn: 3, piece })?;
    let cause = EndCause::End;
    happenings.push(Happening::Closed { conn: 3, cause })?;
    let copied = happenings.copy(alloc)?;
    assert!(rt; copied.len() == 2);
    assert!(rt; matches!(copied.get(0), Some(Happening::Heard { piece, .. }) if piece.len() == 5));
    Ok(())
}

// What ten reads with buffers of at most this size give, and how many of them failed.
fn ten_reads<S: Source>(
    alloc: Global,
    source: &mut S,
    size: usize,
) -> Result<(Bytes, u32), NoMemory> {
    let mut bytes = Bytes::new(alloc);
    let mut failed: u32 = 0;
    for _ in 0..10 {
        let mut buf = [0; 4];
        let buf = &mut buf[..size.min(4)];
        match source.read(buf) {
            Ok(n) => bytes.append(&buf[..n])?,
            Err(_) => failed = failed.saturating_add(1),
        }
    }
    Ok((bytes, failed))
}

#[test]
fn sources_give_their_bytes_in_order(rt: HostRuntime) -> Result<(), Fail> {
    let alloc = rt.alloc();
    // The size of the buffers, and what ten of them hold of `vlans`.
    let sizes: [(usize, &[u8]); 4] = [(4, b"vlans"), (3, b"vlans"), (1, b"vlans"), (0, b"")];
    for (size, want) in sizes {
        let bytes = Bytes::from_slice(alloc, b"vlans")?;
        let (all, failed) = ten_reads(alloc, &mut SureSource::new(bytes), size)?;
        assert!(rt; all.as_slice() == want && failed == 0);
        let bytes = Bytes::from_slice(alloc, b"vlans")?;
        let fail = CallNos::from_slice(alloc, &[1, 3])?;
        let (all, failed) = ten_reads(alloc, &mut MemSource::new(bytes, fail), size)?;
        assert!(rt; all.as_slice() == want && failed == 2);
        let files = SureFiles::new(two_folders(alloc)?);
        let mut source = FileSource::new(files, Text::from_str(alloc, "main")?);
        let (all, failed) = ten_reads(alloc, &mut source, size)?;
        assert!(rt; all.as_slice() == want && failed == 0);
        let mut files = source.into_files();
        assert!(rt; outcome(read_whole(alloc, &mut files, "more", 1), Ok(b"")));
    }
    Ok(())
}

#[test]
fn a_file_that_is_not_there_fails_as_a_source(rt: HostRuntime) -> Result<(), Fail> {
    let alloc = rt.alloc();
    let fail = CallNos::from_slice(alloc, &[2])?;
    // The name, the bytes and how many of ten reads fail.
    let wants: [(&str, &[u8], u32); 3] = [
        ("main", b"vlans", 1),
        ("more", b"", 1),
        ("none", b"", 10),
    ];
    for (name, want, faults) in wants {
        let files = MemFiles::new(two_folders(alloc)?, fail.copy(alloc)?);
        let mut source = FileSource::new(files, Text::from_str(alloc, name)?);
        let (all, failed) = ten_reads(alloc, &mut source, 4)?;
        assert!(rt; all.as_slice() == want && failed == faults);
    }
    Ok(())
}
