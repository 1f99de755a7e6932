// Calls printed to a writer, and a script played from a runtime's input to its output.
use crate::text_player::play_text;
use crate::{changes, pieces, player, reads};
use std::alloc::{Allocator, Global};
use std::cell::Cell;
use std::fmt::Display;
use std::io::{self, BufRead, Lines, Write};
use std::test::Fail;
use vectors_script::command::{Changing, Layout, Reading};
use vectors_script::store::Store;

// A runtime whose input is a script, and whose output has to be what is wanted: it takes no other byte.
#[derive(Drop)]
struct Rig<'a> {
    script: &'a [u8],
    wanted: &'a [u8],
    written: Cell<usize>,
    alloc: Global,
}

impl Rig<'_> {
    fn take(&self, bytes: &[u8]) -> io::Result<()> {
        let at = self.written.get();
        let rest = self.wanted.get(at..).unwrap_or(&[]);
        if !rest.starts_with(bytes) {
            return Err(io::Error::other("other bytes are wanted"));
        }
        self.written.set(at.saturating_add(bytes.len()));
        Ok(())
    }
}

// What takes a rig's output, as a writer.
#[derive(Drop)]
struct Taking<'a>(&'a Rig<'a>);

impl Write for Taking<'_> {
    fn write(&mut self, buf: &[u8]) -> io::Result<usize> {
        self.0.take(buf)?;
        Ok(buf.len())
    }

    fn flush(&mut self) -> io::Result<()> {
        Ok(())
    }
}

impl Alloc for Rig<'_> {
    type A = Global;

    fn alloc(&self) -> Global {
        self.alloc
    }
}

impl<'a> Input for Rig<'a> {
    type Reader = &'a [u8];

    fn read_line<A: Allocator + Clone>(&self, buf: &mut String<A>) -> io::Result<usize> {
        self.reader().read_line(buf)
    }

    fn lines<A: Allocator>(&self, alloc: A) -> Lines<&'a [u8], A> {
        self.reader().lines(alloc)
    }

    fn reader(&self) -> &'a [u8] {
        self.script
    }
}

impl Print for Rig<'_> {
    fn print<D: Display + Drop>(&self, value: D) -> io::Result<()> {
        Taking(self).write_fmt(value)
    }

    fn println<D: Display + Drop>(&self, value: D) -> io::Result<()> {
        Taking(self).writeln(value)
    }

    fn write_all(&self, bytes: &[u8]) -> io::Result<()> {
        self.take(bytes)
    }
}

// A call before the first label, labels, a comment, words that are no command, every call and round, and calls that ask for more than is read or written.
const SCRIPT: &[u8] = b"L 0
# no command  L 0
= first
w  L 0  R 0 0 100  P 0 1 60 70 5
A  XX  S 0 1  F 0 1

= second  L 1
W 0 4 1 300  Z 0 100  D 0  T 1  G
= last
N  B 0  O
= one slot
n 64 12  O  X 0  N  Z 0 5  E 0  Y 0
= long
n 512 96  O  N  Z 0 300  W 0 4 1 300  R 0 258 4  C 0";

const PLAYED: &[u8] = b": length 0 -> 1 -
first: length 0 -> 0 - 53
first: read 0 0 100 -> 10 - [eeeeeeeeeeeeeeeeeeeeeeeeeeeeeeeeeeeeeeeeeeeeeeeeeeeeeeeeeeeeeeeeeeeeeeeeeeeeeeeeeeeeeeeeeeeeeeeeeeeeeeeeeeeeeeeeeeeeeeeeeeeeeeee]
first: head 0 1 60 70 5 -> 0 - 53 1 [40] 52 [4142434445464748494a4b4c4d4e4f505152535455565758595a5b5c5d5e5f606162636465666768696a6b6c6d6e6f8081828384eeeeeeeeeeeeeeee] 0 [eeeeeeeeeeeeeeeeeeeeeeeeeeeeeeeeeeeeeeeeeeeeeeeeeeeeeeeeeeeeeeeeeeeeeeeeeeeeeeeeeeeeeeeeeeeeeeeeeeeeeeeeeeeeeeeeeeeeeeeeeeeeeeee] 0 [eeeeeeeeee]
first: audit -> 0 - 3
first: show 0 1 -> 0 - [8081828384]
first: find 0 1 -> 0 - 144 5
second  L 1: write 0 4 1 300 -> 10 -
second  L 1: resize 0 100 -> 0 -
second  L 1: delete 0 -> 0 -
second  L 1: slot 1 [523100000300000000000000] [00000000000000000000000000000000000000000000000000000000000000000000000000000000000000000000000000000000000000000000000000000000]
second  L 1: sums 1690129053 1905072950
last: create -> 0 - 0
last: read 0 18446744073709551615 2 -> 10 - [eeee]
last: find 0 18446744073709551615 -> 10 -
last: show 0 18446744073709551615 -> 10 - []
last: wipe -> 0 -
one slot: wipe -> 0 -
one slot: create -> 0 - 0
one slot: write 0 0 165 1 -> 10 -
one slot: resize 0 100 -> 11 -
one slot: delete 0 -> 0 -
one slot: slot 0 [523100000100000000000000] [00000000000000000000000000000000000000000000000000000000000000000000000000000000000000000000000000000000000000000000000000000000]
one slot: create -> 0 - 0
one slot: resize 0 5 -> 0 -
one slot: length 0 -> 0 - 5
one slot: read 0 0 1 -> 0 - [00]
one slot: find 0 0 -> 0 - 16 5
one slot: show 0 0 -> 0 - [0000000000]
one slot: head 0 1 0 0 0 -> 0 - 5 1 [00] 0 [] 0 [] 0 []
one slot: audit -> 0 - 1
one slot: write 0 0 165 1 -> 0 -
one slot: resize 0 100 -> 11 -
one slot: delete 0 -> 0 -
one slot: slot 0 [523100000400000000000000] [00000000000000000000000000000000000000000000000000000000000000000000000000000000000000000000000000000000000000000000000000000000]
long: wipe -> 0 -
long: create -> 0 - 0
long: resize 0 300 -> 0 -
long: write 0 4 1 300 -> 0 -
long: read 0 258 4 -> 0 - [ff000000]
long: length 0 -> 0 - 300
long: read 0 0 1 -> 0 - [00]
long: find 0 0 -> 0 - 80 48
long: show 0 0 -> 0 - [000000000102030405060708090a0b0c0d0e0f101112131415161718191a1b1c1d1e1f202122232425262728292a2b2c]
long: head 0 1 0 0 0 -> 0 - 300 1 [00] 0 [] 0 [] 0 []
";

// The pair, laid out: slot 0 is a root, slots 1 and 2 are its leaves, of 48 bytes and of 5.
fn laid_pair() -> Store {
    let mut store = Store::new();
    store.lay(Layout::Pair);
    store
}

#[test]
fn a_script_is_played(rt: HostRuntime) -> Result<(), Fail> {
    let rig = Rig {
        script: SCRIPT,
        wanted: PLAYED,
        written: Cell::new(0),
        alloc: rt.alloc(),
    };
    player::play(&rig)?;
    assert_eq!(rt; rig.written.get(), PLAYED.len());
    Ok(())
}

#[test]
fn what_cannot_be_printed_or_read_is_an_error(rt: HostRuntime) {
    for (script, wanted) in [
        (
            SCRIPT,
            b": length 0 -> 1 -\nfirst: length 0 -> 0 - 5".as_slice(),
        ),
        (b"\xff".as_slice(), PLAYED),
    ] {
        let rig = Rig {
            script,
            wanted,
            written: Cell::new(0),
            alloc: rt.alloc(),
        };
        assert!(rt; player::play(&rig).is_err());
    }
}

#[test]
fn no_call_of_a_round_fails_unseen(rt: HostRuntime) {
    for round in ["w  B 0", "w  C 0", "w  E 0", "w  X 0", "w  Y 0"] {
        let mut room = [0u8; 3];
        let mut out = room.as_mut_slice();
        assert!(rt; play_text(round, &mut out).is_err(), "at {round}");
    }
}

#[test]
fn reading_calls_are_answered(rt: HostRuntime) -> Result<(), Fail> {
    let store = laid_pair();
    let mut out = Vec::new(rt.alloc());
    reads::call(&mut out, Reading::Length { root: 0 }, &store)?;
    reads::call(
        &mut out,
        Reading::Read {
            root: 0,
            offset: 47,
            size: 3,
        },
        &store,
    )?;
    reads::call(&mut out, Reading::Show { root: 1, leaf: 0 }, &store)?;
    assert_eq!(rt; out.as_slice(), b" 0 - 53 0 - [6f8081] 3 - []".as_slice());
    out.clear();
    pieces::hand_out(&mut out, &store, 0, [2, 0, 1, 0])?;
    assert_eq!(rt;
        out.as_slice(),
        b" 0 - 53 2 [4041] 0 [] 1 [42] 0 []".as_slice()
    );
    Ok(())
}

#[test]
fn changing_calls_are_answered(rt: HostRuntime) -> Result<(), Fail> {
    let mut store = laid_pair();
    let mut out = Vec::new(rt.alloc());
    changes::call(
        &mut out,
        Changing::Write {
            root: 0,
            offset: 0,
            first: 255,
            count: 2,
        },
        &mut store,
    )?;
    changes::call(&mut out, Changing::Create, &mut store)?;
    changes::call(&mut out, Changing::Delete { root: 1 }, &mut store)?;
    reads::call(
        &mut out,
        Reading::Read {
            root: 0,
            offset: 0,
            size: 3,
        },
        &store,
    )?;
    assert_eq!(rt; out.as_slice(), b" 0 - 0 - 3 3 - 0 - [ff0042]".as_slice());
    Ok(())
}
