// What a changing call stores of one slot: its block, then its record. Nothing else writes to pool or records, apart from wipe and the stretches of a
// write.
ghost use Rattle.std.specs.Prelude.{◌≡◌, ◌+◌, ◌*◌, ◌^◌, ◌≤◌, ◌<◌, length, replicate};
ghost use Rattle.meaning.specs.Edition.{Proper};
ghost use Rattle.meaning.specs.Bytes.{block_bytes, record_of};
ghost use Rattle.meaning.specs.Change.{put};
ghost use Rattle.plan_slot.specs.change.Places.{Places};

use crate::payload::Drawn;
use base_block::build;
use base_bytes::runs;
use base_slot::{record, slot};
use meaning::Edition;

// A slot's record becomes one of that state and version.
pub fn put_record(records: &mut [u8], slot: usize, state: u8, version: u64)
    requires { 12 * slot + 12 ≤ length records.old }
    ensures { records.new ≡ put 12 slot (record_of state version) records.old }
{
    let line = record::build(state, 0, version);
    slot::store_record(records, slot, &line);
}

// Stores a slot's block, as it stands in the lent scratch, and its record.
fn store_slot(
    e: Edition,
    pool: &mut [u8],
    records: &mut [u8],
    scratch: &[u8],
    slot: usize,
    state: u8,
    version: u64,
)
    requires { Places e pool.old records.old scratch.now slot }
    ensures pool_after { pool.new ≡ put e.size slot scratch.now pool.old }
    ensures records_after { records.new ≡ put 12 slot (record_of state version) records.old }
{
    slot::store_block(e, pool, slot, scratch);
    put_record(records, slot, state, version);
}

// A slot holds a new cell: its block and its record at that version.
pub fn put_cell(
    e: Edition,
    pool: &mut [u8],
    records: &mut [u8],
    scratch: &mut [u8],
    slot: usize,
    drawn: Drawn,
    payload: &[u8],
    state: u8,
    version: u64,
)
    requires proper { Proper e }
    requires places { Places e pool.old records.old scratch.old slot }
    requires slot_bound { (slot < 2 ^ 32) × (length payload.now ≤ e.leaf) }
    ensures pool_after { pool.new ≡ put e.size slot (block_bytes e drawn.height drawn.count slot version payload.now) pool.old }
    ensures records_after { records.new ≡ put 12 slot (record_of state version) records.old }
{
    build::build_block(
        e,
        scratch,
        drawn.height,
        drawn.count,
        slot as u32,
        version,
        payload,
    );
    store_slot(e, pool, records, scratch, slot, state, version);
}

// A slot's block goes: zeros, and a free record that keeps its version.
pub fn put_free(
    e: Edition,
    pool: &mut [u8],
    records: &mut [u8],
    scratch: &mut [u8],
    slot: usize,
    version: u64,
)
    requires { Places e pool.old records.old scratch.old slot }
    ensures pool_after { pool.new ≡ put e.size slot (replicate e.size 0) pool.old }
    ensures records_after { records.new ≡ put 12 slot (record_of 0 version) records.old }
{
    runs::clear(scratch);
    store_slot(e, pool, records, scratch, slot, 0, version);
}
