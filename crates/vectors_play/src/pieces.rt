// For the programs of test vectors: a blob's first pieces, printed, as a head hands them out.
use std::io::{self, Write};
use store::reads;
use vectors_print::answers;
use vectors_print::out::Out;
use vectors_print::say::Hex;
use vectors_script::store::Store;

// What opening a head is answered, then what it hands out: for each asking of at most 64 bytes how many bytes there were, and the
// whole output, which holds EE before. A refused head is asked too: it has none to hand out.
pub fn hand_out<W: Write>(
    out: &mut W,
    store: &Store,
    root: u64,
    sizes: [u64; 4],
) -> io::Result<()> {
    let (pool, records) = store.slices();
    let mut head = store_head::open(pool, records, root);
    answers::value(out, head.answer)?;
    for size in sizes {
        let mut buffer = [0xEEu8; 64];
        let room = &mut buffer[..size.min(64) as usize];
        let before = head.place;
        head = store_head::next(head, room);
        let count = head.place.saturating_sub(before);
        let piece = Hex(room);
        write!(out, " {count} {piece}")?;
    }
    Ok(())
}

// The askings of a head, one after the other: for each how many bytes there were, and the whole output, which holds EE before. A head that is opened
// hands out the first; the others go by root, length and place.
fn ask_all(out: &mut Out, store: &Store, root: u64, len: u64, sizes: [u64; 4]) {
    let (pool, records) = store.slices();
    let mut place: u64 = 0;
    for (i, size) in sizes.into_iter().enumerate() {
        let mut buffer = [0xEEu8; 64];
        let piece = &mut buffer[..size.min(64) as usize];
        let count = if i == 0 {
            store_head::first_bytes(pool, records, root, piece)
        } else {
            store_head::next_bytes(pool, root, len, place, piece)
        };
        place = place.wrapping_add(count);
        let piece = Hex(piece);
        out.print(format_args!(" {count} {piece}"));
    }
    out.println("");
}

// As `hand_out`, and the line's end, on standard output. At most 64 bytes are asked for at once; where more are, nothing follows, no line end either.
pub fn print_pieces(out: &mut Out, store: &Store, root: u64, sizes: [u64; 4]) {
    if sizes.iter().all(|size| *size <= 64) {
        let (pool, records) = store.slices();
        let answer = reads::length(pool, records, root);
        answers::print_value(out, answer);
        ask_all(out, store, root, answer.unwrap_or(0), sizes);
    }
}
