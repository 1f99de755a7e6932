// For the programs of test vectors: stores laid out byte by byte, with none of the code that is tried.
use crate::block;
use crate::command::Layout;

// The slots that a store has at most: programs keep to 1,024 (W-203), and there is room for one more, the pool of 65,600 bytes.
pub const SLOTS: u64 = 1025;

// Room for a pool and its records, and how long the script says that they are. What lies behind a length is not the store's.
#[derive(Drop)]
pub struct Store {
    pool: [u8; 65600],
    records: [u8; 12300],
    pool_len: usize,
    records_len: usize,
}

// The first bytes of a slice, or all.
fn front(bytes: &[u8], len: usize) -> &[u8] {
    bytes.get(..len).unwrap_or(bytes)
}

// The first bytes of a slice, or all, to be changed.
fn front_mut(bytes: &mut [u8], len: usize) -> &mut [u8] {
    let end = len.min(bytes.len());
    &mut bytes[..end]
}

impl Store {
    // A store of no bytes.
    pub fn new() -> Store {
        Store {
            pool: [0; 65600],
            records: [0; 12300],
            pool_len: 0,
            records_len: 0,
        }
    }

    // Whether there is room for all of the store.
    pub fn has_room(&self) -> bool {
        self.pool_len <= self.pool.len() && self.records_len <= self.records.len()
    }

    // Pool and records, or as much of them as there is room for.
    pub fn slices(&self) -> (&[u8], &[u8]) {
        (
            front(&self.pool, self.pool_len),
            front(&self.records, self.records_len),
        )
    }

    // Pool and records, to be changed.
    pub fn slices_mut(&mut self) -> (&mut [u8], &mut [u8]) {
        let pool_len = self.pool_len;
        let records_len = self.records_len;
        let pool = &mut self.pool;
        let records = &mut self.records;
        (front_mut(pool, pool_len), front_mut(records, records_len))
    }

    // All zeros, but that every record has its mark: a wiped store.
    fn wipe(&mut self, pool_len: u64, records_len: u64) {
        self.pool.fill(0);
        self.records.fill(0);
        self.pool_len = pool_len as usize;
        self.records_len = records_len as usize;
        for slot in 0..SLOTS {
            self.record(slot, 0, 0);
        }
    }

    // A leaf's block, and nothing of its record. Here and below a slot past the room is the first past it, where nothing is laid: where a block lies then
    // has a bound that the compiler knows.
    fn leaf(&mut self, place: u64, own: u64, count: u64, version: u64) {
        block::leaf(&mut self.pool, place.min(SLOTS), own, count, version);
    }

    // A record: state 0 free, 1 part, 2 root.
    fn record(&mut self, slot: u64, state: u64, version: u64) {
        block::record(&mut self.records, slot.min(SLOTS), state, version);
    }

    // Slot 0, version 7, is a root with the children 1 and 2; slot 1, version 3, is a leaf of 48 bytes; slot 2, version 5, a leaf of 5.
    fn pair(&mut self) {
        self.wipe(256, 48);
        block::inner(&mut self.pool, 0, 1, 2, 7, 1);
        self.leaf(1, 1, 48, 3);
        self.leaf(2, 2, 5, 5);
        self.record(0, 2, 7);
        self.record(1, 1, 3);
        self.record(2, 1, 5);
    }

    // Leaves of 48 bytes, version 1, in the slots from `first` up to `end`, with their records: parts, version 1.
    fn leaves(&mut self, first: u64, end: u64) {
        for slot in first..end {
            self.leaf(slot, slot, 48, 1);
            self.record(slot, 1, 1);
        }
    }

    // Lays out what a command says.
    pub fn lay(&mut self, layout: Layout) {
        match layout {
            Layout::Wiped { pool, records } => self.wipe(pool, records),
            Layout::Pair => self.pair(),
            Layout::Leaf {
                place,
                own,
                count,
                version,
            } => self.leaf(place, own, count, version),
            Layout::Inner {
                slot,
                height,
                count,
                version,
                first,
            } => {
                block::inner(
                    &mut self.pool,
                    slot.min(SLOTS),
                    height,
                    count,
                    version,
                    first,
                )
            }
            Layout::Leaves { first, end } => self.leaves(first, end),
            Layout::Record {
                slot,
                state,
                version,
            } => self.record(slot, state, version),
            Layout::PoolByte { at, value } => block::poke(&mut self.pool, at, value),
            Layout::RecordsByte { at, value } => block::poke(&mut self.records, at, value),
        }
    }
}
