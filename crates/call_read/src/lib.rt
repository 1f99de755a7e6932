// A read, for any edition: size bytes from an offset on.
#![tactic(auto)]

pub mod copy;

ghost use Rattle.std.specs.Prelude.{◌≡◌, ◌*◌, ◌≤◌, length, take, replicate};
ghost use Rattle.meaning.specs.Edition.{Proper};
ghost use Rattle.meaning.specs.Calls.{slots_in, read_in, read_call};
ghost use Rattle.meaning.specs.Answers.{Reads};
ghost use Rattle.check_gate.specs.Gate.{Whole};
ghost use Rattle.check_gate.specs.Places.{Clear};
ghost use Rattle.call_read.specs.copy.{spelt, Readable, read_spelt};

use base_bytes::range;
use meaning::{Edition, Reason, Refusal};

// Refusal 10, or the whole output filled: of a blob of so many bytes, whose leaves lie in the row's first k slots.
fn read_found(
    e: Edition,
    pool: &[u8],
    row: &[u32],
    n: usize,
    bytes: u64,
    k: usize,
    offset: u64,
    out: &mut [u8],
) -> Result<(), Refusal>
    requires proper { Proper e }
    requires k_in_bounds { (k ≤ length row.now) × (length pool.now ≡ e.size * n) }
    requires readable { Readable e n pool.now (take k row.now) }
    requires bytes_value { bytes ≡ length (spelt e pool.now (take k row.now)) }
    ensures { Reads (read_spelt offset (length out.old) (spelt e pool.now (take k row.now))) result out.old out.new }
{
    if !range::lies_within(bytes, offset, out.len() as u64) {
        return Err(meaning::refuse_nowhere(Reason::OutOfRange));
    }
    copy::read_at(e, pool, row, n, k, offset as usize, out);
    Ok(())
}

// Refusal 3 and the blob check, then the read.
fn read_in(
    e: Edition,
    pool: &[u8],
    records: &[u8],
    seen: &mut [u8],
    row: &mut [u32],
    n: usize,
    root: u64,
    offset: u64,
    out: &mut [u8],
) -> Result<(), Refusal>
    requires proper { Proper e }
    requires whole { Whole e n pool.now records.now }
    requires seen_value { (seen.old ≡ replicate n 0) × (length row.old ≡ n) }
    ensures { Reads (read_in e n pool.now records.now root offset (length out.old)) result out.old out.new }
{
    // Kept as a match: the edit range_before_blob changes what it answers of a refusal.
    match check_blob::open::open_blob(e, pool, records, seen, row, n, root) {
        Err(r) => Err(r),
        Ok((bytes, k)) => read_found(e, pool, row, n, bytes, k, offset, out),
    }
}

// The whole call: refusals 1 and 2, then the read. Flags and row have a place for each slot of the pool.
pub fn read_call(
    e: Edition,
    pool: &[u8],
    records: &[u8],
    seen: &mut [u8],
    row: &mut [u32],
    root: u64,
    offset: u64,
    out: &mut [u8],
) -> Result<(), Refusal>
    requires proper { Proper e }
    requires clear { Clear e pool.now seen.old × (slots_in e pool.now ≤ length row.old) }
    ensures { Reads (read_call e pool.now records.now root offset (length out.old)) result out.old out.new }
{
    let n = check_gate::open(e, pool, records)?;
    read_in(
        e,
        pool,
        records,
        &mut seen[0..n],
        &mut row[0..n],
        n,
        root,
        offset,
        out,
    )
}
