// What is printed to a writer: each form of text once, and a writer that has too little room.
use crate::{answers, dump, say};
use meaning::{Reason, Refusal};
use std::test::Fail;
use vectors_script::command::{Layout, Printing};
use vectors_script::store::Store;

const MOVED: Refusal = Refusal {
    reason: Reason::Moved,
    named: Some(7),
};

const NO_ROOM: Refusal = Refusal {
    reason: Reason::NoRoom,
    named: None,
};

#[test]
fn answers_have_their_text(rt: HostRuntime) -> Result<(), Fail> {
    let mut out = Vec::new(rt.alloc());
    say::passed(&mut out)?;
    say::refusal(&mut out, 77, None)?;
    say::refusal(&mut out, 3, Some(4))?;
    say::refused(&mut out, MOVED)?;
    assert_eq!(rt; out.as_slice(), b" 0 - 77 - 3 4 5 7".as_slice());
    out.clear();
    answers::value(&mut out, Ok(53))?;
    answers::value(&mut out, Err(MOVED))?;
    answers::done(&mut out, Ok(()))?;
    answers::done(&mut out, Err(NO_ROOM))?;
    answers::leaf(&mut out, Ok((80, 48)))?;
    answers::leaf(&mut out, Err(NO_ROOM))?;
    assert_eq!(rt;
        out.as_slice(),
        b" 0 - 53 5 7 0 - 11 - 0 - 80 48 11 -".as_slice()
    );
    Ok(())
}

#[test]
fn a_store_has_its_lines(rt: HostRuntime) -> Result<(), Fail> {
    let mut store = Store::new();
    store.lay(Layout::Wiped {
        pool: 66,
        records: 13,
    });
    store.lay(Layout::Record {
        slot: 0,
        state: 2,
        version: 258,
    });
    let mut out = Vec::new(rt.alloc());
    dump::call(&mut out, "a", Printing::Slot(1), &store)?;
    assert_eq!(rt; out.as_slice(), b"a: slot 1 [52] [0000]\n".as_slice());
    out.clear();
    dump::call(&mut out, "a", Printing::Slot(2), &store)?;
    assert!(rt; out.is_empty());
    dump::call(&mut out, "b", Printing::Hex, &store)?;
    let lines = out.as_slice();
    assert!(rt; lines.starts_with(b"b: slot 0 [523102000201000000000000] [0000"));
    assert!(rt; lines.ends_with(b"00]\nb: slot 1 [52] [0000]\n"));
    Ok(())
}

#[test]
fn sums_tell_stores_apart(rt: HostRuntime) -> Result<(), Fail> {
    let mut store = Store::new();
    let mut out = Vec::new(rt.alloc());
    dump::call(&mut out, "", Printing::Sums, &store)?;
    store.lay(Layout::Wiped {
        pool: 64,
        records: 12,
    });
    dump::call(&mut out, "c", Printing::Sums, &store)?;
    let wanted: &[u8] = b": sums 1 1\nc: sums 2666332217 1391948966\n";
    assert_eq!(rt; out.as_slice(), wanted);
    Ok(())
}

#[test]
fn every_slot_has_a_line(rt: HostRuntime) -> Result<(), Fail> {
    let mut store = Store::new();
    store.lay(Layout::Wiped {
        pool: 65600,
        records: 12300,
    });
    let mut out = Vec::new(rt.alloc());
    dump::call(&mut out, "d", Printing::Hex, &store)?;
    let lines = out.as_slice().split(|byte| *byte == b'\n');
    assert_eq!(rt;
        lines.filter(|line| line.starts_with(b"d: slot ")).count(),
        1025
    );
    Ok(())
}

#[test]
fn too_little_room_is_an_error(rt: HostRuntime) {
    let mut room = [0u8; 3];
    let mut out = room.as_mut_slice();
    assert!(rt; answers::value(&mut out, Ok(53)).is_err());
    let mut room = [0u8; 5];
    let mut out = room.as_mut_slice();
    assert!(rt; dump::call(&mut out, "a", Printing::Sums, &Store::new()).is_err());
}
