// One slot of a write is stored in place, by its plan.
ghost use Rattle.std.specs.Prelude.{◌≡◌, ◌+◌, ◌*◌, ◌≤◌, ◌<◌, length};
ghost use Rattle.meaning.specs.Edition.{Proper};
ghost use Rattle.meaning.specs.Lists.{part, pasted, bytes};
ghost use Rattle.meaning.specs.Bytes.{block, state, recorded, record_of, last_version};
ghost use Rattle.meaning.specs.Change.{put, puts};
ghost use Rattle.plan_write.specs.stretch.{write_plan, Place, Writable};

use crate::stretch;
use base_slot::{record, slot};
use check_survey::marks::Notes;
use meaning::Edition;
use plan_slot::change;

// The version that a slot gets when it changes: its record's and one more.
fn next_version(records: &[u8], i: usize) -> u64
    requires { (12 * i + 12 ≤ length records.now) × (recorded records.now i < last_version) }
    ensures { result ≡ recorded records.now i + 1 }
{
    record::version_of(slot::record_of(records, i)) + 1
}

// A slot's record keeps its state and gets that version.
fn raise_record(records: &mut [u8], i: usize, version: u64)
    requires { 12 * i + 12 ≤ length records.old }
    ensures { records.new ≡ put 12 i (record_of (state records.old i) version) records.old }
{
    let kept = record::state_of(slot::record_of(records, i));
    change::put_record(records, i, kept, version);
}

// A leaf's stretch is stored in place, with the next version in block and record.
fn store_leaf(
    e: Edition,
    pool: &mut [u8],
    records: &mut [u8],
    src: &[u8],
    i: usize,
    within: usize,
    from: usize,
    count: usize,
)
    requires size_in_bounds { (e.size * i + e.size ≤ length pool.old) × (12 * i + 12 ≤ length records.old) }
    requires count_bound { (16 + within + count ≤ e.size) × (from + count ≤ length src.now) }
    requires i_bound { recorded records.old i < last_version }
    ensures pool_after { pool.new ≡ put e.size i (pasted (16 + within) (part from count src.now) (pasted 8 (bytes 8 (recorded records.old i + 1)) (block e pool.old i))) pool.old }
    ensures records_after { records.new ≡ put 12 i (record_of (state records.old i) (recorded records.old i + 1)) records.old }
{
    let version = next_version(records, i);
    slot::store_stretch(e, pool, i, version, within, src, from, count);
    raise_record(records, i, version);
}

// One slot: its bytes are compared first; where they differ, its stretch is stored.
pub fn write_slot(
    e: Edition,
    pool: &mut [u8],
    records: &mut [u8],
    notes: Notes,
    src: &[u8],
    offset: usize,
    i: usize,
)
    requires proper { Proper e }
    requires size_value { e.size ≡ 16 + e.leaf }
    requires place { Place e pool.old notes.heights.now notes.firsts.now i }
    requires i_in_bounds { 12 * i + 12 ≤ length records.old }
    requires writable { Writable e pool.old records.old notes.heights.now i }
    ensures pool_after { pool.new ≡ puts e.size (λ c. c.block) (write_plan e pool.old records.old notes.entry.heights.now notes.entry.firsts.now src.now offset i) pool.old }
    ensures records_after { records.new ≡ puts 12 (λ c. c.line) (write_plan e pool.old records.old notes.entry.heights.now notes.entry.firsts.now src.now offset i) records.old }
{
    match stretch::plan_slot(e, pool, notes, src, offset, i) {
        None => {}
        Some(t) => store_leaf(e, pool, records, src, i, t.within, t.from, t.count),
    }
}
