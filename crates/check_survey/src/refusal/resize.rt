// Why a resize is refused.
ghost use Rattle.std.specs.Prelude.{◌≡◌, ◌*◌, ◌^◌, ◌≤◌, length};
ghost use Rattle.meaning.specs.Edition.{Proper};
ghost use Rattle.check_survey.specs.refusal.{resize_barred};

use crate::worn;
use base_shape::vacancy;
use meaning::{Edition, Reason, Refusal};

// Refusals 12 and 11 of a blob of so many leaves, with so many free slots.
pub fn barred(
    e: Edition,
    records: &[u8],
    heights: &[u8],
    n: usize,
    leaves: usize,
    len: u64,
    free: usize,
) -> Result<(), Refusal>
    requires proper { Proper e }
    requires records_len { (length records.now ≡ 12 * n) × (length heights.now ≡ n) }
    requires leaves_bound { (leaves ≤ 2 ^ 32) × (free ≤ 2 ^ 32) }
    ensures { result ≡ resize_barred e records.now heights.now n leaves len free }
{
    if worn::is_worn(records, heights, n) {
        return Err(meaning::refuse_nowhere(Reason::WornOut));
    }
    if vacancy::lacks_room(e, leaves, len, free) {
        return Err(meaning::refuse_nowhere(Reason::NoRoom));
    }
    Ok(())
}
