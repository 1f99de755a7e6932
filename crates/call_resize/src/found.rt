// Resize of a blob that is found: refusals 12 and 11, then the blob as it becomes.
ghost use Rattle.std.specs.Prelude.{◌≡◌, length};
ghost use Rattle.meaning.specs.Edition.{Proper};
ghost use Rattle.meaning.specs.Calls.{resize_in};
ghost use Rattle.meaning.specs.Answers.{answer_of, Ends};
ghost use Rattle.check_gate.specs.Gate.{Whole};
ghost use Rattle.call_resize.specs.fit.Found.{Found, Drafts};

use crate::either;
use base_shape::shape;
use base_slot::usable;
use check_survey::marks::Notes;
use check_survey::refusal;
use meaning::{Edition, Refusal};

// All is known before the first byte is written.
pub fn resize_found(
    e: Edition,
    pool: &mut [u8],
    records: &mut [u8],
    row: &mut [u32],
    notes: Notes,
    kept: &mut [u8],
    payload: &mut [u8],
    scratch: &mut [u8],
    n: usize,
    root: usize,
    bytes: usize,
    leaves: usize,
    len: u64,
) -> Result<(), Refusal>
    requires proper { Proper e }
    requires whole { Whole e n pool.old records.old }
    requires found { Found e n pool.old records.old root bytes leaves notes.heights.now notes.firsts.now }
    requires drafts { Drafts e kept.old payload.old scratch.old }
    requires row_len { length row.old ≡ n }
    ensures { Ends e answer_of (resize_in e n pool.old records.old root len) pool.old records.old result pool.new records.new }
{
    let free = usable::list(records, row, n);
    refusal::resize::barred(e, records, notes.heights, n, leaves, len, free)?;
    let want = shape::leaf_count(e.leaf as u64, len);
    either::resize_blob(
        e,
        pool,
        records,
        &row[0..free],
        notes,
        kept,
        payload,
        scratch,
        n,
        root,
        bytes,
        leaves,
        len as usize,
        want as usize,
    );
    Ok(())
}
