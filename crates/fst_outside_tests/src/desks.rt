//! The two desks in memory, and that of the operating system.
//!
//! What is asked of a desk stands in functions that answer with a truth value, since the proof of a test costs by the ways
//! through it.

use fst_desk::{Desk, FetchFault, MemoryDesk, RealDesk, StoreFault, SureDesk};
use std::alloc::{AllocError, Global};
use std::fs;
use std::test::Fail;

/// Whether the file holds this text.
fn is_held(desk: &MemoryDesk, name: &str, want: &str) -> bool {
    match desk.held(name) {
        Some(content) => content == want.as_bytes(),
        None => false,
    }
}

/// Whether this text was shown, and nothing else.
fn is_shown(desk: &MemoryDesk, want: &str) -> bool {
    desk.shown_bytes() == want.as_bytes()
}

/// Whether a file of so many bytes at most is fetched as these bytes.
fn fetches<D: Desk>(desk: &mut D, alloc: Global, name: &str, limit: usize, want: &[u8]) -> bool {
    match desk.fetch(alloc, name, limit) {
        Ok(content) => content.as_slice() == want,
        Err(_) => false,
    }
}

/// Whether to fetch a file of so many bytes at most fails in this way.
fn refuses<D: Desk>(
    desk: &mut D,
    alloc: Global,
    name: &str,
    limit: usize,
    fault: FetchFault,
) -> bool {
    match desk.fetch(alloc, name, limit) {
        Ok(_) => false,
        Err(found) => found == fault,
    }
}

/// Whether the bytes cannot be stored.
fn keeps_out<D: Desk>(desk: &mut D, name: &str, bytes: &[u8]) -> bool {
    desk.store(name, bytes) == Err(StoreFault::Failed)
}

/// Whether the bytes cannot be shown.
fn hides<D: Desk>(desk: &mut D, bytes: &[u8]) -> bool {
    desk.show(bytes) == Err(StoreFault::Failed)
}

/// A desk with two files, one of which was stored over what it held, and two lines that were shown.
fn used(alloc: Global) -> Result<MemoryDesk, AllocError> {
    let mut desk = MemoryDesk::new(alloc);
    desk.put("a", b"one")?;
    desk.put("b", b"two")?;
    let _ = desk.store("a", b"three");
    let _ = desk.show(b"x\n");
    let _ = desk.show(b"y\n");
    Ok(desk)
}

/// Whether a file holds the text, and is fetched where so many bytes are let in and not where one less is.
fn keeps(desk: &mut MemoryDesk, alloc: Global, name: &str, want: &str) -> bool {
    let size = want.len();
    is_held(desk, name, want)
        && fetches(desk, alloc, name, size, want.as_bytes())
        && refuses(
            desk,
            alloc,
            name,
            size.saturating_sub(1),
            FetchFault::TooLong,
        )
}

#[test]
fn keeps_what_is_put_stored_and_shown(rt: HostRuntime) -> Result<(), Fail> {
    let alloc = rt.alloc();
    let mut desk = used(alloc)?;
    for (name, want) in [("a", "three"), ("b", "two")] {
        assert!(rt; keeps(&mut desk, alloc, name, want), "{name}");
    }
    let lacks = desk.held("c").is_none() && refuses(&mut desk, alloc, "c", 9, FetchFault::Failed);
    let counts = (desk.fetches(), desk.stores(), desk.shows()) == (5, 1, 2);
    assert!(rt; lacks && counts && is_shown(&desk, "x\ny\n"));
    Ok(())
}

/// A desk with a file, whose first three calls fail after so many bytes.
fn failing(alloc: Global, after: u64) -> Result<MemoryDesk, AllocError> {
    let mut desk = MemoryDesk::new(alloc);
    desk.put("a", b"one")?;
    for call in 1..4 {
        desk.fail(call, after)?;
    }
    Ok(desk)
}

/// Whether a fetch, a store and a show fail, and these are the bytes that the last two let through; and whether the next
/// call does not fail.
fn fails_with(desk: &mut MemoryDesk, alloc: Global, want: &str) -> bool {
    let fails = refuses(desk, alloc, "a", 9, FetchFault::Failed)
        && keeps_out(desk, "a", b"xyz")
        && hides(desk, b"xyz");
    fails && is_held(desk, "a", want) && is_shown(desk, want) && desk.show(b"") == Ok(())
}

#[test]
fn fails_where_it_was_asked_to(rt: HostRuntime) -> Result<(), Fail> {
    let alloc = rt.alloc();
    for (after, want) in [(0, ""), (2, "xy"), (3, "xyz"), (9, "xyz")] {
        let mut desk = failing(alloc, after)?;
        assert!(rt; fails_with(&mut desk, alloc, want), "{after}");
    }
    Ok(())
}

/// Whether the file is stored and fetched, and not fetched where fewer bytes are let in.
fn stands<D: Desk>(desk: &mut D, alloc: Global, name: &str, bytes: &[u8]) -> bool {
    let size = bytes.len();
    desk.store(name, bytes) == Ok(())
        && fetches(desk, alloc, name, size, bytes)
        && (size == 0
            || refuses(
                desk,
                alloc,
                name,
                size.saturating_sub(1),
                FetchFault::TooLong,
            ))
}

#[test]
fn stores_and_fetches_files(rt: HostRuntime) -> Result<(), Fail> {
    let alloc = rt.alloc();
    let mut desk = RealDesk::new(alloc, &rt);
    // More bytes than one read asks for; then fewer, which replace them; then none.
    for count in [200_000, 3, 0] {
        let bytes = Vec::from_elem(alloc, 7u8, count)?;
        assert!(rt;
            stands(&mut desk, alloc, "stored_by_a_test", bytes.as_slice()),
            "{count}"
        );
    }
    fs::remove_file(&rt, "stored_by_a_test")?;
    Ok(())
}

/// Whether a desk holds this file and has shown this text, and a name that is not held reads as empty.
fn is_sure(desk: &mut SureDesk, alloc: Global, name: &str, want: &[u8], line: &[u8]) -> bool {
    desk.held(name) == Some(want)
        && desk.shown_bytes() == line
        && desk.held("missing").is_none()
        && fetches(desk, alloc, "missing", 0, b"")
}

#[test]
fn fails_for_lack_of_memory_alone(rt: HostRuntime) -> Result<(), Fail> {
    let alloc = rt.alloc();
    let mut desk = SureDesk::new(alloc);
    desk.put("a", b"one")?;
    assert!(rt; fetches(&mut desk, alloc, "a", 3, b"one"));
    for bytes in [b"three".as_slice(), b"four", b""] {
        assert!(rt; stands(&mut desk, alloc, "a", bytes), "{bytes:?}");
    }
    let shows = desk.show(b"x\n") == Ok(()) && desk.show(b"y\n") == Ok(());
    assert!(rt; shows && is_sure(&mut desk, alloc, "a", b"", b"x\ny\n"));
    Ok(())
}

/// Whether nothing is stored under this name, and nothing fetched.
fn is_closed<D: Desk>(desk: &mut D, alloc: Global, name: &str) -> bool {
    refuses(desk, alloc, name, 9, FetchFault::Failed) && keeps_out(desk, name, b"x")
}

#[test]
fn answers_what_fails(rt: HostRuntime) -> Result<(), Fail> {
    let alloc = rt.alloc();
    let mut desk = RealDesk::new(alloc, &rt);
    // A folder, and a file in a folder that is not there; and a file that is not there.
    for name in [".", "missing/file"] {
        assert!(rt; is_closed(&mut desk, alloc, name), "{name}");
    }
    let missing = refuses(&mut desk, alloc, "missing", 9, FetchFault::Failed);
    let shows = desk.show(b"a line\n") == Ok(()) && hides(&mut desk, &[255]);
    assert!(rt; missing && shows);
    Ok(())
}
