// Why a write is refused.
ghost use Rattle.std.specs.Prelude.{◌≡◌, ◌*◌, length};
ghost use Rattle.check_survey.specs.refusal.{write_barred};

use crate::worn;
use base_bytes::range;
use meaning::{Reason, Refusal};

// Refusals 12 and 10 inside a blob of so many bytes.
pub fn barred(
    records: &[u8],
    heights: &[u8],
    n: usize,
    bytes: u64,
    offset: u64,
    size: usize,
) -> Result<(), Refusal>
    requires { (length records.now ≡ 12 * n) × (length heights.now ≡ n) }
    ensures { result ≡ write_barred records.now heights.now n bytes offset size }
{
    if worn::is_worn(records, heights, n) {
        return Err(meaning::refuse_nowhere(Reason::WornOut));
    }
    if !range::lies_within(bytes, offset, size as u64) {
        return Err(meaning::refuse_nowhere(Reason::OutOfRange));
    }
    Ok(())
}
