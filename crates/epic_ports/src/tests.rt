//! Tests of stores and sinks, each through its trait.

use crate::{
    DiskStore, MemSink, MemStore, NamedStore, PortError, ReadError, Sink, StdSink, Store,
    append_all, read_whole, write_all,
};
use std::alloc::{AllocError, Global};
use std::process::Abort;
use std::test::Fail;
use std::{env, fs, process};

/// Writes a text in two pieces.
fn write_text<O: Sink>(sink: &mut O) -> Result<(), PortError> {
    write_all(sink, b"hop ")?;
    write_all(sink, b"")?;
    write_all(sink, b"field")
}

#[test]
fn sinks_take_pieces(rt: HostRuntime) -> Result<(), Fail> {
    let alloc = rt.alloc();
    for (most, room, fail, want) in [
        (1, 9, 0, "hop field"),
        (2, 100, 8, "hop field"),
        (100, 9, 3, "hop field"),
        (2, 9, 2, "ho"),
        (2, 9, 1, ""),
        (4, 6, 0, "hop fi"),
        (9, 0, 0, ""),
    ] {
        let numbers = Vec::from_slice(alloc, &[fail])?;
        let mut sink = MemSink::new(alloc, most, room, numbers)?;
        let is_whole = write_text(&mut sink).is_ok();
        assert_eq!(rt; sink.written(), want.as_bytes(), "{most} {room} {fail}");
        assert_eq!(rt; is_whole, want.len() == 9, "{most} {room} {fail}");
    }
    // A writer that is full is a fault, too.
    let mut bytes = [0u8; 6];
    let mut sink = StdSink::new(bytes.as_mut_slice());
    assert_eq!(rt; write_text(&mut sink), Err(PortError::Failed));
    drop(sink);
    assert_eq!(rt; bytes, *b"hop fi");
    Ok(())
}

/// Whether a file is read as these bytes under a limit, or with this error.
fn reads<S: Store>(
    alloc: Global,
    store: &mut S,
    name: &str,
    limit: u32,
    want: Result<&[u8], ReadError>,
) -> bool {
    match (read_whole(alloc, store, name, u64::from(limit)), want) {
        (Ok(bytes), Ok(want)) => bytes.as_slice() == want,
        (Err(error), Err(want)) => error == want,
        _ => false,
    }
}

/// A store of one file `a`, of so many sevens.
fn sevens(
    rt: &impl Abort,
    alloc: Global,
    length: usize,
    fail: u64,
) -> Result<MemStore, AllocError> {
    let mut files = Vec::new(alloc);
    files.push((String::from_str(alloc, "a")?, vec![in alloc; 7u8; length]?))?;
    assert!(rt; MemStore::names_differ(files.as_slice()));
    Ok(MemStore::new(files, Vec::from_slice(alloc, &[fail])?))
}

#[test]
fn files_are_read_up_to_a_limit(rt: HostRuntime) -> Result<(), Fail> {
    let alloc = rt.alloc();
    for (length, limit, fail, error) in [
        (0, 0, 0, None),
        (1, 1, 3, None),
        (1, 0, 0, Some(ReadError::TooLong)),
        (4096, 4096, 0, None),
        (4097, 4096, 0, Some(ReadError::TooLong)),
        (10_000, 20_000, 0, None),
        (10_000, 20_000, 2, Some(ReadError::Failed)),
        (10_000, 20_000, 4, Some(ReadError::Failed)),
    ] {
        let bytes = vec![in alloc; 7u8; length]?;
        let want = match error {
            Some(error) => Err(error),
            None => Ok(bytes.as_slice()),
        };
        let mut store = sevens(&rt, alloc, length, fail)?;
        assert!(rt;
            reads(alloc, &mut store, "a", limit, want),
            "{length} {limit} {fail}"
        );
    }
    Ok(())
}

/// Makes a file of two pieces and an empty one.
fn make_file<S: Store>(store: &mut S, name: &str) -> Result<(), PortError> {
    store.create(name)?;
    append_all(store, name, b"one ")?;
    append_all(store, name, b"")?;
    append_all(store, name, b"two")
}

#[test]
fn files_in_memory_are_made(rt: HostRuntime) -> Result<(), Fail> {
    let alloc = rt.alloc();
    for (fail, want) in [
        (0, Some(b"one two".as_slice())),
        (1, None),
        (2, Some(b"".as_slice())),
        (3, Some(b"one ".as_slice())),
    ] {
        let mut store = sevens(&rt, alloc, 3, fail)?;
        let is_whole = make_file(&mut store, "b").is_ok();
        assert!(rt; store.file("b") == want, "{fail}");
        assert!(rt; is_whole == (fail == 0), "{fail}");
    }
    Ok(())
}

#[test]
fn stores_fail_at_a_name(rt: HostRuntime) -> Result<(), Fail> {
    let alloc = rt.alloc();
    for (name, appends, want) in [
        ("a", false, Some(b"one two".as_slice())),
        ("b", false, None),
        ("b", true, Some(b"".as_slice())),
    ] {
        let below = sevens(&rt, alloc, 3, 0)?;
        let mut store = NamedStore::new(below, String::from_str(alloc, name)?, appends);
        let is_whole = make_file(&mut store, "b").is_ok();
        assert!(rt; store.file("b") == want, "{name} {appends}");
        assert!(rt; is_whole == (name == "a"), "{name} {appends}");
        // What failed once is done then.
        assert!(rt;
            is_whole || make_file(&mut store, "b").is_ok(),
            "{name} {appends}"
        );
    }
    Ok(())
}

#[test]
fn files_on_disk_are_made(rt: HostRuntime) -> Result<(), Fail> {
    let alloc = rt.alloc();
    let name = format!(in alloc; "epic_ports_{}", process::id(rt.process()))?;
    let path = env::temp_dir(&rt)?.join(alloc, name.as_str())?;
    let path = path.to_str().ok_or("the folder's name is no text")?;
    let mut store = DiskStore::new(&rt);
    assert_eq!(rt; make_file(&mut store, path), Ok(()));
    assert!(rt; reads(alloc, &mut store, path, 7, Ok(b"one two".as_slice())));
    assert!(rt; reads(alloc, &mut store, path, 6, Err(ReadError::TooLong)));
    store.create(path)?;
    assert!(rt; reads(alloc, &mut store, path, 0, Ok(b"".as_slice())));
    fs::remove_file(&rt, path)?;
    assert!(rt; reads(alloc, &mut store, path, 7, Err(ReadError::Failed)));
    assert_eq!(rt; make_file(&mut store, ""), Err(PortError::Failed));
    Ok(())
}
