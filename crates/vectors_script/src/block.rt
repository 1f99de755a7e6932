// For the programs of test vectors: one block, record or byte laid out, as document 01 has it: nothing here uses the code that is
// tried. What lies outside a slice is left out.

// Bytes from a place on.
fn put(bytes: &mut [u8], at: usize, values: &[u8]) {
    if let Some(rest) = bytes.get_mut(at..) {
        for (byte, value) in rest.iter_mut().zip(values) {
            *byte = *value;
        }
    }
}

// Where a slot's bytes start, `width` of them a slot, or the last place that a number names.
fn start(slot: u64, width: usize) -> usize {
    width.saturating_mul(slot as usize)
}

// A number modulo 256.
fn low(value: u64) -> u8 {
    (value % 256) as u8
}

// One byte, modulo 256.
pub fn poke(bytes: &mut [u8], at: u64, value: u64) {
    put(bytes, at as usize, &[low(value)]);
}

// A slot number's four bytes.
fn put_slot(block: &mut [u8], at: usize, slot: u64) {
    put(block, at, &slot.to_le_bytes()[..4]);
}

// A block's header: `own` is the slot number that the block names.
fn put_header(block: &mut [u8], own: u64, height: u64, count: u64, version: u64) {
    put(block, 0, &[b'L', b'1', low(height), low(count)]);
    put_slot(block, 4, own);
    put(block, 8, &version.to_le_bytes());
}

// A leaf, whose data byte i is 64 times its own slot, plus i, modulo 256.
pub fn leaf(pool: &mut [u8], place: u64, own: u64, count: u64, version: u64) {
    if let Some(block) = pool.get_mut(start(place, 64)..) {
        put_header(block, own, 0, count, version);
        let first = own.wrapping_mul(64);
        for (i, byte) in (0..count.min(48)).zip(block.iter_mut().skip(16)) {
            *byte = low(first.wrapping_add(i));
        }
    }
}

// An inner block, whose children are the slots from `first` on.
pub fn inner(pool: &mut [u8], slot: u64, height: u64, count: u64, version: u64, first: u64) {
    if let Some(block) = pool.get_mut(start(slot, 64)..) {
        put_header(block, slot, height, count, version);
        for (i, child) in (0..count.min(12)).zip(block.chunks_mut(4).skip(4)) {
            put_slot(child, 0, first.wrapping_add(i));
        }
    }
}

// A record: state 0 free, 1 part, 2 root.
pub fn record(records: &mut [u8], slot: u64, state: u64, version: u64) {
    if let Some(record) = records.get_mut(start(slot, 12)..) {
        put(record, 0, &[b'R', b'1', low(state), 0]);
        put(record, 4, &version.to_le_bytes());
    }
}

// The bytes first, first + 1 and so on, modulo 256.
pub fn fill(bytes: &mut [u8], first: u64) {
    for (i, byte) in (0u64..).zip(bytes.iter_mut()) {
        *byte = low(first.wrapping_add(i));
    }
}
