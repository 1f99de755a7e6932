// The calls that read: length, read, find a leaf, show it, audit. Any bytes, roots, offsets and leaves may come in.
ghost use Rattle.std.specs.Prelude.{◌≡◌, ◌+◌, length};
ghost use Rattle.meaning.specs.Edition.{one};
ghost use Rattle.meaning.specs.Calls.{length_call, read_call, show_call, audit_call};
ghost use Rattle.meaning.specs.Answers.{answer_of, leaf_answer, Reads, shown_at, shown_part, shown_number, shown_slot};
ghost use Rattle.call_show.specs.place.{Lies};

use crate::check_lengths;
use meaning::Refusal;

// The length of a blob.
pub fn length(pool: &[u8], records: &[u8], root: u64) -> Result<u64, Refusal>
    ensures { result ≡ answer_of (length_call one pool.now records.now root) }
{
    check_lengths(pool, records)?;
    rows_read::length::in_rows(pool, records, root)
}

// The whole of out is filled from the offset on, or out is left as it is.
pub fn read(
    pool: &[u8],
    records: &[u8],
    root: u64,
    offset: u64,
    out: &mut [u8],
) -> Result<(), Refusal>
    ensures { Reads (read_call one pool.now records.now root offset (length out.old)) result out.old out.new }
{
    check_lengths(pool, records)?;
    rows_read::read::in_rows(pool, records, root, offset, out)
}

// Where a leaf's data bytes lie in the pool.
pub fn find_leaf(
    pool: &[u8],
    records: &[u8],
    root: u64,
    leaf: u64,
) -> Result<(usize, usize), Refusal>
    ensures value { result ≡ leaf_answer one (show_call one pool.now records.now root leaf) }
    ensures lies { Lies result (length pool.now) }
{
    check_lengths(pool, records)?;
    rows_read::leaf::in_rows(pool, records, root, leaf)
}

// A leaf's data bytes as they lie in the pool, at their own place there. A pointer is a block of memory and an offset in it: the part lies in the
// pool's block, so many bytes after the pool's start. Number and slot are those of a refusal, which shows an empty part; 0 and no slot otherwise.
pub fn show<'a>(
    pool: &'a [u8],
    records: &[u8],
    root: u64,
    leaf: u64,
    number: &mut u64,
    slot: &mut u64,
) -> &'a [u8]
    ensures ref_ptr_value { (result.ref_ptr.0 ≡ pool.entry.ref_ptr.0) × (result.ref_ptr.1 ≡ pool.entry.ref_ptr.1 + shown_at one (show_call one pool.now records.now root leaf)) }
    ensures result_value { result.now ≡ shown_part one pool.now (show_call one pool.now records.now root leaf) }
    ensures number_after { number.new ≡ shown_number (show_call one pool.now records.now root leaf) }
    ensures slot_after { slot.new ≡ shown_slot (show_call one pool.now records.now root leaf) }
{
    match find_leaf(pool, records, root, leaf) {
        Ok((start, count)) => {
            *number = 0;
            *slot = 0xFFFF_FFFF_FFFF_FFFF;
            let end = start + count;
            &pool[start..end]
        }
        Err(r) => {
            *number = r.reason.number();
            *slot = answers::slot_number(r.named);
            &pool[0..0]
        }
    }
}

// The count of live slots, if the whole pool is sound.
pub fn audit(pool: &[u8], records: &[u8]) -> Result<u64, Refusal>
    ensures { result ≡ answer_of (audit_call one pool.now records.now) }
{
    check_lengths(pool, records)?;
    rows_read::audit::in_rows(pool, records)
}
