// For the programs of test vectors: a whole store, printed, each slot in hex, or both slices as a sum.
use crate::out::Out;
use crate::say::Hex;
use std::io::{self, Write};
use vectors_script::command::Printing;
use vectors_script::store::{SLOTS, Store};

// The bytes of a slot, `width` of them or as many as there are.
fn part(bytes: &[u8], slot: u64, width: usize) -> &[u8] {
    let rest = bytes
        .get(width.wrapping_mul(slot.min(SLOTS) as usize)..)
        .unwrap_or(&[]);
    rest.get(..width).unwrap_or(rest)
}

// One byte more of a sum: 16,777,619 times the sum, plus the byte, modulo the prime 4,294,967,291.
fn mix(sum: u64, byte: &u8) -> u64 {
    (sum % 4294967291 * 16777619 + u64::from(*byte)) % 4294967291
}

// The sum of a slice: from 1 on, byte by byte.
fn sum(bytes: &[u8]) -> u64 {
    bytes.iter().fold(1, mix)
}

// A slot's line, if the store has bytes there: its number, its record, its block.
fn slot<W: Write>(out: &mut W, label: &str, store: &Store, slot: u64) -> io::Result<()> {
    let (pool, records) = store.slices();
    let block = Hex(part(pool, slot, 64));
    let record = Hex(part(records, slot, 12));
    if block.0.is_empty() && record.0.is_empty() {
        return Ok(());
    }
    writeln!(out, "{label}: slot {slot} {record} {block}")
}

// Every byte of records and pool, a line a slot.
fn hex<W: Write>(out: &mut W, label: &str, store: &Store) -> io::Result<()> {
    for i in 0..SLOTS {
        slot(out, label, store, i)?;
    }
    Ok(())
}

// The sums of records and pool: a store too large for hex is told from another one.
fn sums<W: Write>(out: &mut W, label: &str, store: &Store) -> io::Result<()> {
    let (pool, records) = store.slices();
    writeln!(out, "{label}: sums {} {}", sum(records), sum(pool))
}

// Prints the store.
pub fn call<W: Write>(out: &mut W, label: &str, call: Printing, store: &Store) -> io::Result<()> {
    match call {
        Printing::Hex => hex(out, label, store),
        Printing::Slot(i) => slot(out, label, store, i),
        Printing::Sums => sums(out, label, store),
    }
}

// A slot's line on standard output, whose label need not be text.
fn print_slot(out: &mut Out, label: &[u8], store: &Store, slot: u64) {
    let (pool, records) = store.slices();
    let block = Hex(part(pool, slot, 64));
    let record = Hex(part(records, slot, 12));
    if block.0.is_empty() && record.0.is_empty() {
        return;
    }
    out.bytes(label);
    out.println(format_args!(": slot {slot} {record} {block}"));
}

// A line a slot, on standard output.
fn print_hex(out: &mut Out, label: &[u8], store: &Store) {
    for i in 0..SLOTS {
        print_slot(out, label, store, i);
    }
}

// The sums, on standard output.
fn print_sums(out: &mut Out, label: &[u8], store: &Store) {
    let (pool, records) = store.slices();
    out.bytes(label);
    out.println(format_args!(": sums {} {}", sum(records), sum(pool)));
}

// Prints the store on standard output.
pub fn print_call(out: &mut Out, label: &[u8], call: Printing, store: &Store) {
    match call {
        Printing::Hex => print_hex(out, label, store),
        Printing::Slot(i) => print_slot(out, label, store, i),
        Printing::Sums => print_sums(out, label, store),
    }
}
