// The calls that change the store. A refusal writes nothing anywhere.
ghost use Rattle.meaning.specs.Edition.{one};
ghost use Rattle.meaning.specs.Calls.{create_call, write_call, resize_call, delete_call};
ghost use Rattle.meaning.specs.Answers.{answer_of, Ends, Wipes};

use crate::check_lengths;
use meaning::Refusal;
use rows_change::change::{Change, Delete, Resize, Write};

// Pool all zeros, each record free at version 0.
pub fn wipe(pool: &mut [u8], records: &mut [u8]) -> Result<(), Refusal>
    ensures { Wipes one pool.old records.old result pool.new records.new }
{
    let e = meaning::edition_one();
    call_wipe::wipe_call(e, pool, records)
}

// A new empty blob, in the lowest usable free slot.
pub fn create(pool: &mut [u8], records: &mut [u8]) -> Result<u64, Refusal>
    ensures { Ends one answer_of (create_call one pool.old records.old) pool.old records.old result pool.new records.new }
{
    check_lengths(pool, records)?;
    rows_change::create::in_rows(pool, records)
}

// A blob is changed, in rows of the least size that suffices.
fn change_blob<C: Change>(pool: &mut [u8], records: &mut [u8], change: C) -> Result<(), Refusal>
    ensures { Ends one answer_of (C.call change pool.old records.old) pool.old records.old result pool.new records.new }
{
    // Kept as a match: the edit changes_refuse_with_two changes what it answers of wrong lengths.
    match check_lengths(pool, records) {
        Err(r) => Err(r),
        Ok(()) => rows_change::change::in_rows(pool, records, change),
    }
}

// Every block of a blob goes.
pub fn delete(pool: &mut [u8], records: &mut [u8], root: u64) -> Result<(), Refusal>
    ensures { Ends one answer_of (delete_call one pool.old records.old root) pool.old records.old result pool.new records.new }
{
    change_blob(pool, records, Delete { root })
}

// Bytes are put inside a blob's present length, from an offset on.
pub fn write(
    pool: &mut [u8],
    records: &mut [u8],
    root: u64,
    offset: u64,
    src: &[u8],
) -> Result<(), Refusal>
    ensures { Ends one answer_of (write_call one pool.old records.old root offset src.now) pool.old records.old result pool.new records.new }
{
    change_blob(pool, records, Write { root, offset, src })
}

// A blob gets another length: cut, or filled with zeros.
pub fn resize(pool: &mut [u8], records: &mut [u8], root: u64, len: u64) -> Result<(), Refusal>
    ensures { Ends one answer_of (resize_call one pool.old records.old root len) pool.old records.old result pool.new records.new }
{
    change_blob(pool, records, Resize { root, len })
}
