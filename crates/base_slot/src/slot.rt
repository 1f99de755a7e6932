// The one door to a slot's bytes: nothing else multiplies a slot by a width.
ghost use Rattle.std.specs.Prelude.{◌≡◌, ◌+◌, ◌*◌, ◌≤◌, length};
ghost use Rattle.meaning.specs.Lists.{part, pasted, bytes};
ghost use Rattle.meaning.specs.Edition.{Proper};
ghost use Rattle.meaning.specs.Bytes.{block, record_at};
ghost use Rattle.meaning.specs.Change.{put};

use base_bytes::{number, runs};
use meaning::Edition;

// The bytes of a record.
pub const RECORD: usize = 12;

// A slot's bytes, where a slot has that width.
fn part_of<'a>(bytes: &'a [u8], width: usize, slot: usize) -> &'a [u8]
    requires { width * slot + width ≤ length bytes.now }
    ensures { (result.now ≡ part (width * slot) width bytes.now) × (length result.now ≡ width) }
{
    let start = width * slot;
    let end = start + width;
    &bytes[start..end]
}

// A slot's bytes become new ones.
fn put_in(bytes: &mut [u8], width: usize, slot: usize, new: &[u8])
    requires { (width * slot + width ≤ length bytes.old) × (length new.now ≡ width) }
    ensures { bytes.new ≡ put width slot new.now bytes.old }
{
    runs::paste(bytes, width * slot, new);
}

// A slot's block.
pub fn block_of<'a>(e: Edition, pool: &'a [u8], slot: usize) -> &'a [u8]
    requires { e.size * slot + e.size ≤ length pool.now }
    ensures { (result.now ≡ block e pool.now slot) × (length result.now ≡ e.size) }
{
    part_of(pool, e.size, slot)
}

// Where a slot's payload starts in the pool.
pub fn payload_start(e: Edition, pool: &[u8], slot: usize) -> usize
    requires proper { Proper e }
    requires size_in_bounds { e.size * slot + e.size ≤ length pool.now }
    ensures { result ≡ e.size * slot + 16 }
{
    e.size * slot + 16
}

// A slot's record.
pub fn record_of<'a>(records: &'a [u8], slot: usize) -> &'a [u8]
    requires { 12 * slot + 12 ≤ length records.now }
    ensures { (result.now ≡ record_at records.now slot) × (length result.now ≡ 12) }
{
    part_of(records, RECORD, slot)
}

// Stores a slot's block.
pub fn store_block(e: Edition, pool: &mut [u8], slot: usize, new: &[u8])
    requires { (e.size * slot + e.size ≤ length pool.old) × (length new.now ≡ e.size) }
    ensures { pool.new ≡ put e.size slot new.now pool.old }
{
    put_in(pool, e.size, slot, new);
}

// Stores a stretch of a slot's payload, in place, and its version: from `within` on the payload becomes so many bytes of `src`.
pub fn store_stretch(
    e: Edition,
    pool: &mut [u8],
    slot: usize,
    version: u64,
    within: usize,
    src: &[u8],
    from: usize,
    count: usize,
)
    requires size_in_bounds { e.size * slot + e.size ≤ length pool.old }
    requires count_bound { (16 + within + count ≤ e.size) × (from + count ≤ length src.now) }
    ensures { pool.new ≡ put e.size slot (pasted (16 + within) (part from count src.now) (pasted 8 (bytes 8 version) (block e pool.old slot))) pool.old }
{
    let start = e.size * slot;
    number::put::<8>(pool, start + 8, version);
    let at = start + 16 + within;
    let end = at + count;
    runs::fill(&mut pool[at..end], src, from);
}

// Stores a slot's record.
pub fn store_record(records: &mut [u8], slot: usize, new: &[u8])
    requires { (12 * slot + 12 ≤ length records.old) × (length new.now ≡ 12) }
    ensures { records.new ≡ put 12 slot new.now records.old }
{
    put_in(records, RECORD, slot, new);
}
