// A blob resized, past every refusal.
ghost use Rattle.std.specs.Prelude.{◌≡◌};
ghost use Rattle.meaning.specs.Edition.{Proper};
ghost use Rattle.meaning.specs.Change.{puts};
ghost use Rattle.call_resize.specs.fit.Found.{resized_to, Drafts, Roomy};

use crate::fit;
use check_survey::marks::Notes;
use meaning::Edition;

// The blob gets that length.
pub fn resize_blob(
    e: Edition,
    pool: &mut [u8],
    records: &mut [u8],
    free: &[u32],
    notes: Notes,
    kept: &mut [u8],
    payload: &mut [u8],
    scratch: &mut [u8],
    n: usize,
    root: usize,
    bytes: usize,
    leaves: usize,
    len: usize,
    want: usize,
)
    requires proper { Proper e }
    requires roomy { Roomy e n pool.old records.old root bytes leaves notes.heights.now notes.firsts.now free.now len want }
    requires drafts { Drafts e kept.old payload.old scratch.old }
    ensures pool_after { pool.new ≡ puts e.size (λ c. c.block) (resized_to e n pool.old records.old root len) pool.old }
    ensures records_after { records.new ≡ puts 12 (λ c. c.line) (resized_to e n pool.old records.old root len) records.old }
{
    if len < bytes {
        fit::shorten(
            e, pool, records, notes, kept, payload, scratch, n, root, len, want,
        );
    } else {
        fit::lengthen(
            e, pool, records, free, notes, kept, payload, scratch, n, root, leaves, len, want,
        );
    }
}
