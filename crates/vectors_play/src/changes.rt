// For the programs of test vectors: each changing call of the store, run once, and its answer printed.
use std::io::{self, Write};
use vectors_print::answers;
use vectors_print::out::Out;
use vectors_script::block;
use vectors_script::command::Changing;
use vectors_script::store::Store;

// At most 256 bytes are written, rising from `first`.
fn write<W: Write>(
    out: &mut W,
    store: &mut Store,
    root: u64,
    offset: u64,
    first: u64,
    count: u64,
) -> io::Result<()> {
    let mut buffer = [0u8; 256];
    let data = &mut buffer[..count.min(256) as usize];
    block::fill(data, first);
    let (pool, records) = store.slices_mut();
    answers::done(
        out,
        store::changes::write(pool, records, root, offset, data),
    )
}

// A call that changes the store.
pub fn call<W: Write>(out: &mut W, call: Changing, store: &mut Store) -> io::Result<()> {
    let (pool, records) = store.slices_mut();
    match call {
        Changing::Wipe => answers::done(out, store::changes::wipe(pool, records)),
        Changing::Create => answers::value(out, store::changes::create(pool, records)),
        Changing::Write {
            root,
            offset,
            first,
            count,
        } => write(out, store, root, offset, first, count),
        Changing::Resize { root, len } => answers::done(
            out,
            store::changes::resize(pool, records, root, len),
        ),
        Changing::Delete { root } => answers::done(
            out,
            store::changes::delete(pool, records, root),
        ),
    }
}

// At most 256 bytes are written, rising from `first`; where more are asked for nothing is written, and nothing follows, no line end either.
fn print_write(out: &mut Out, store: &mut Store, root: u64, offset: u64, first: u64, count: u64) {
    let mut buffer = [0u8; 256];
    if let Some(data) = buffer.get_mut(..count as usize) {
        block::fill(data, first);
        let (pool, records) = store.slices_mut();
        answers::print_done(
            out,
            store::changes::write(pool, records, root, offset, data),
        );
        out.println("");
    }
}

// A call that changes the store, and its line's end, on standard output.
pub fn print_call(out: &mut Out, call: Changing, store: &mut Store) {
    let (pool, records) = store.slices_mut();
    match call {
        Changing::Wipe => answers::print_done(out, store::changes::wipe(pool, records)),
        Changing::Create => answers::print_value(out, store::changes::create(pool, records)),
        Changing::Write {
            root,
            offset,
            first,
            count,
        } => return print_write(out, store, root, offset, first, count),
        Changing::Resize { root, len } => answers::print_done(
            out,
            store::changes::resize(pool, records, root, len),
        ),
        Changing::Delete { root } => answers::print_done(
            out,
            store::changes::delete(pool, records, root),
        ),
    }
    out.println("");
}
