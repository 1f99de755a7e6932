// For the programs of test vectors: each reading call of the store, run once, and its answer printed.
use crate::pieces;
use std::io::{self, Write};
use store::reads;
use vectors_print::out::Out;
use vectors_print::say::Hex;
use vectors_print::{answers, say};
use vectors_script::command::Reading;
use vectors_script::store::Store;

// At most 64 bytes are read. The output holds EE before the call.
fn read<W: Write>(out: &mut W, store: &Store, root: u64, offset: u64, size: u64) -> io::Result<()> {
    let mut buffer = [0xEEu8; 64];
    let bytes = &mut buffer[..size.min(64) as usize];
    let (pool, records) = store.slices();
    answers::done(out, reads::read(pool, records, root, offset, bytes))?;
    let bytes = Hex(bytes);
    write!(out, " {bytes}")
}

// The lent numbers hold 77 before the call. Where the call names no slot, the lent number is 2^64 - 1, as its contract says.
fn show<W: Write>(out: &mut W, store: &Store, root: u64, leaf: u64) -> io::Result<()> {
    let (pool, records) = store.slices();
    let mut number = 77;
    let mut slot = 77;
    let part = Hex(reads::show(pool, records, root, leaf, &mut number, &mut slot));
    say::refusal(out, number, (slot != u64::MAX).then_some(slot))?;
    write!(out, " {part}")
}

// A call that reads the store.
pub fn call<W: Write>(out: &mut W, call: Reading, store: &Store) -> io::Result<()> {
    let (pool, records) = store.slices();
    match call {
        Reading::Length { root } => answers::value(out, reads::length(pool, records, root)),
        Reading::Read { root, offset, size } => read(out, store, root, offset, size),
        Reading::Find { root, leaf } => answers::leaf(
            out,
            reads::find_leaf(pool, records, root, leaf),
        ),
        Reading::Show { root, leaf } => show(out, store, root, leaf),
        Reading::Head { root, sizes } => pieces::hand_out(out, store, root, sizes),
        Reading::Audit => answers::value(out, reads::audit(pool, records)),
    }
}

// At most 64 bytes are read; where more are asked for nothing follows, no line end either. The output holds EE before the call.
fn print_read(out: &mut Out, store: &Store, root: u64, offset: u64, size: u64) {
    let mut buffer = [0xEEu8; 64];
    if let Some(bytes) = buffer.get_mut(..size as usize) {
        let (pool, records) = store.slices();
        answers::print_done(out, reads::read(pool, records, root, offset, bytes));
        let bytes = Hex(bytes);
        out.println(format_args!(" {bytes}"));
    }
}

// As `show`, and the line's end, on standard output.
fn print_show(out: &mut Out, store: &Store, root: u64, leaf: u64) {
    let (pool, records) = store.slices();
    let mut number = 77;
    let mut slot = 77;
    let part = Hex(reads::show(pool, records, root, leaf, &mut number, &mut slot));
    say::print_refusal(out, number, (slot != u64::MAX).then_some(slot));
    out.println(format_args!(" {part}"));
}

// A call that reads the store, and its line's end, on standard output.
pub fn print_call(out: &mut Out, call: Reading, store: &Store) {
    let (pool, records) = store.slices();
    match call {
        Reading::Length { root } => answers::print_value(out, reads::length(pool, records, root)),
        Reading::Read { root, offset, size } => return print_read(out, store, root, offset, size),
        Reading::Find { root, leaf } => answers::print_leaf(
            out,
            reads::find_leaf(pool, records, root, leaf),
        ),
        Reading::Show { root, leaf } => return print_show(out, store, root, leaf),
        Reading::Head { root, sizes } => return pieces::print_pieces(out, store, root, sizes),
        Reading::Audit => answers::print_value(out, reads::audit(pool, records)),
    }
    out.println("");
}
