ghost use Rattle.std.specs.Prelude.{◌≤◌};

use crate::files::read_all;
use crate::{
    FileShelf, Gate, MemShelf, MemSink, OpenGate, Shelf, ShelfError, Sink, SinkFailed, StdSink,
    SteadyShelf, SteadySink, put_all,
};
use std::alloc::{AllocError, Global};
use std::cell::Cell;
use std::fmt::Display;
use std::io::{Error, ErrorKind, Read};
use std::test::Fail;
use std::{fs, io};

const TEXT: &[u8] = b"u 1 fresh\nq 1 1 7 = 10\nt 7 = 10\nend\n";

const FAILED: Result<&'static [u8], ShelfError> = Err(ShelfError::Failed);

// A name, a limit, and what a fetch answers.
type Fetch = (&'static str, u64, Result<&'static [u8], ShelfError>);

// A piece, and what a put answers.
type Put = (&'static [u8], Result<u64, SinkFailed>);

// The place of the first fetch that answers otherwise, or how many there are.
fn fetches<S: Shelf>(shelf: &mut S, alloc: Global, calls: &[Fetch]) -> usize {
    for (at, (name, limit, wanted)) in calls.iter().enumerate() {
        let right = match (shelf.fetch(alloc, name, *limit), wanted) {
            (Ok(bytes), Ok(wanted)) => bytes.as_slice() == *wanted,
            (Err(why), Err(wanted)) => why == *wanted,
            _ => false,
        };
        if !right {
            return at;
        }
    }
    calls.len()
}

// The same for puts.
fn puts<K: Sink>(sink: &mut K, calls: &[Put]) -> usize {
    for (at, (piece, wanted)) in calls.iter().enumerate() {
        if sink.put(piece) != *wanted {
            return at;
        }
    }
    calls.len()
}

fn some_files(alloc: Global) -> Result<Vec<(String, Vec<u8>)>, AllocError> {
    let mut files = Vec::new(alloc);
    for (name, bytes) in [("u", b"set 7 10".as_slice()), ("q", b"get 7"), ("u", b"")] {
        files.push((
            String::from_str(alloc, name)?,
            Vec::from_slice(alloc, bytes)?,
        ))?;
    }
    Ok(files)
}

const OF_MEMORY: &[Fetch] = &[
    ("u", 8, Ok(b"set 7 10")),
    ("q", 5, Ok(b"get 7")),
    ("u", 8, FAILED),
    ("u", 7, Err(ShelfError::TooLong { bytes: 8 })),
    ("v", 8, FAILED),
    ("", 8, FAILED),
    ("q", 0, Err(ShelfError::TooLong { bytes: 1 })),
    ("q", u64::MAX, Ok(b"get 7")),
    ("q", 5, FAILED),
];

#[test]
fn a_shelf_in_memory(rt: HostRuntime) -> Result<(), Fail> {
    let alloc = rt.alloc();
    let mut shelf = MemShelf::new(some_files(alloc)?, vec![in alloc; 3, 9]?);
    assert_eq!(rt; fetches(&mut shelf, alloc, OF_MEMORY), OF_MEMORY.len());
    Ok(())
}

const OF_STEADY: &[Fetch] = &[
    ("u", 8, Ok(b"set 7 10")),
    ("u", 7, Err(ShelfError::TooLong { bytes: 8 })),
    ("v", 0, Ok(b"")),
];

#[test]
fn a_steady_shelf(rt: HostRuntime) -> Result<(), Fail> {
    let alloc = rt.alloc();
    let mut shelf = SteadyShelf::new(some_files(alloc)?);
    assert_eq!(rt; fetches(&mut shelf, alloc, OF_STEADY), OF_STEADY.len());
    Ok(())
}

fn sink_of(alloc: Global, room: u64, most: u64, fails: u64) -> Result<MemSink, AllocError>
    requires { 1 ≤ most }
{
    let mut numbers = Vec::new(alloc);
    numbers.push(fails)?;
    MemSink::new(alloc, room, most, numbers)
}

const UNTIL_FAILURE: &[Put] = &[(TEXT, Ok(5)), (TEXT, Err(SinkFailed)), (b"ox", Ok(2))];

const UNTIL_FULL: &[Put] = &[
    (TEXT, Ok(5)),
    (b"resh", Ok(2)),
    (b"", Ok(0)),
    (b"sh", Err(SinkFailed)),
];

#[test]
fn a_sink_in_memory(rt: HostRuntime) -> Result<(), Fail> {
    let alloc = rt.alloc();
    let mut sink = sink_of(alloc, 100, 5, 2)?;
    assert_eq!(rt; puts(&mut sink, UNTIL_FAILURE), UNTIL_FAILURE.len());
    assert_eq!(rt; sink.bytes(), b"u 1 fox".as_slice());

    let mut full = sink_of(alloc, 7, 5, 0)?;
    assert_eq!(rt; puts(&mut full, UNTIL_FULL), UNTIL_FULL.len());
    assert_eq!(rt; full.bytes(), b"u 1 fre".as_slice());
    Ok(())
}

#[test]
fn a_steady_sink(rt: HostRuntime) {
    let mut sink = SteadySink::new();
    assert_eq!(rt; puts(&mut sink, &[(TEXT, Ok(36)), (b"", Ok(0))]), 2);
    assert_eq!(rt; sink.bytes(), 36);
}

// What a sink has after the whole text was put to it, and whether it took all.
fn after_all(mut sink: MemSink, bytes: &[u8], wanted: &[u8]) -> (bool, bool) {
    let all = put_all(&mut sink, bytes).is_ok();
    (all, sink.bytes() == wanted)
}

#[test]
fn a_whole_text(rt: HostRuntime) -> Result<(), Fail> {
    let alloc = rt.alloc();
    assert_eq!(rt;
        after_all(sink_of(alloc, 100, 5, 0)?, TEXT, TEXT),
        (true, true)
    );
    assert_eq!(rt;
        after_all(sink_of(alloc, 100, 5, 3)?, TEXT, b"u 1 fresh\n"),
        (false, true)
    );

    // 65,536 bytes at a time, and then the rest
    let long = vec![in alloc; 7; 131_073]?;
    let two_pieces = vec![in alloc; 7; 131_072]?;
    let all = after_all(sink_of(alloc, 131_073, u64::MAX, 4)?, &long, &long);
    assert_eq!(rt; all, (true, true));
    let cut = after_all(sink_of(alloc, 131_073, u64::MAX, 3)?, &long, &two_pieces);
    assert_eq!(rt; cut, (false, true));
    Ok(())
}

const OF_FILES: &[Fetch] = &[
    ("files.test/short", 9, Ok(b"set 7 10\n")),
    ("files.test/short", u64::MAX, Ok(b"set 7 10\n")),
    ("files.test/short", 8, Err(ShelfError::TooLong { bytes: 9 })),
    ("files.test/empty", 0, Ok(b"")),
    ("files.test/missing", 9, FAILED),
    (".", 9, FAILED),
    ("", 9, FAILED),
];

#[test]
fn real_files(rt: HostRuntime) -> Result<(), Fail> {
    fs::create_dir_all(&rt, "files.test")?;
    fs::write(&rt, "files.test/short", "set 7 10\n")?;
    fs::write(&rt, "files.test/empty", "")?;
    let mut shelf = FileShelf::new(&rt);
    let right = fetches(&mut shelf, rt.alloc(), OF_FILES);
    fs::remove_dir_all(&rt, "files.test")?;
    assert_eq!(rt; right, OF_FILES.len());
    Ok(())
}

#[test]
fn a_long_file(rt: HostRuntime) -> Result<(), Fail> {
    let alloc = rt.alloc();
    let long = vec![in alloc; 7; 131_073]?;
    fs::create_dir_all(&rt, "long.test")?;
    fs::write(&rt, "long.test/long", &long)?;
    let mut shelf = FileShelf::new(&rt);
    let bytes = shelf.fetch(alloc, "long.test/long", 131_073);
    let longer = shelf.fetch(alloc, "long.test/long", 131_072).err();
    fs::remove_dir_all(&rt, "long.test")?;
    let bytes = bytes.ok().ok_or("long")?;
    assert!(rt; bytes.as_slice() == long.as_slice());
    assert_eq!(rt; longer, Some(ShelfError::TooLong { bytes: 131_073 }));
    Ok(())
}

// A reader of two pieces, interrupted before each, which then ends or fails.
#[derive(Drop)]
struct Pieces {
    reads: u8,
    ends: bool,
}

impl Read for Pieces {
    fn read(&mut self, buf: &mut [u8]) -> io::Result<usize> {
        let read = self.reads;
        self.reads = read.saturating_add(1);
        if read == 0 || read == 2 {
            return Err(Error::from(ErrorKind::Interrupted));
        }
        if read > 3 && !self.ends {
            return Err(Error::from(ErrorKind::TimedOut));
        }
        match buf.first_mut() {
            Some(first) if read <= 3 => {
                *first = read;
                Ok(1)
            }
            _ => Ok(0),
        }
    }
}

// The length of all that the pieces give within a limit, or the error.
fn length_of(alloc: Global, ends: bool, limit: u64) -> Result<usize, ShelfError> {
    let bytes = read_all(&mut Pieces { reads: 0, ends }, alloc, 0, limit)?;
    Ok(bytes.len())
}

#[test]
fn a_reader_that_fails(rt: HostRuntime) {
    let alloc = rt.alloc();
    assert_eq!(rt; length_of(alloc, true, 2), Ok(2));
    assert_eq!(rt;
        length_of(alloc, true, 1),
        Err(ShelfError::TooLong { bytes: 2 })
    );
    assert_eq!(rt; length_of(alloc, false, 2), Err(ShelfError::Failed));
}

// An output that is interrupted, takes one byte, fails, and then takes nothing.
#[derive(Drop)]
struct Broken {
    writes: Cell<u8>,
}

impl Print for Broken {
    fn print<D: Display + Drop>(&self, _value: D) -> io::Result<()> {
        Ok(())
    }

    fn println<D: Display + Drop>(&self, _value: D) -> io::Result<()> {
        Ok(())
    }

    fn write_all(&self, _bytes: &[u8]) -> io::Result<()> {
        Ok(())
    }

    fn write_some(&self, bytes: &[u8]) -> io::Result<usize> {
        let write = self.writes.get();
        self.writes.set(write.saturating_add(1));
        match write {
            0 => Err(Error::from(ErrorKind::Interrupted)),
            1 if !bytes.is_empty() => Ok(1),
            2 => Err(Error::from(ErrorKind::BrokenPipe)),
            _ => Ok(0),
        }
    }
}

const TO_BROKEN: &[Put] = &[
    (TEXT, Ok(1)),
    (TEXT, Err(SinkFailed)),
    (TEXT, Err(SinkFailed)),
    (b"", Ok(0)),
];

#[test]
fn standard_output(rt: HostRuntime) {
    assert_eq!(rt;
        put_all(&mut StdSink::new(&rt), b"the whole text\n"),
        Ok(())
    );

    let broken = Broken {
        writes: Cell::new(0),
    };
    assert_eq!(rt;
        puts(&mut StdSink::new(&broken), TO_BROKEN),
        TO_BROKEN.len()
    );
}

// Threads may share the gate.
fn pass<G: Gate + Sync>(gate: &G) {
    gate.before(0, 1);
}

#[test]
fn an_open_gate() {
    pass(&OpenGate);
}
