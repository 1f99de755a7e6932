// Refusal 12: whether a block of a blob is at the last version.
ghost use Rattle.std.specs.Prelude.{◌≡◌, not, ◌+◌, ◌*◌, ◌≤◌, ◌<◌, length};
ghost use Rattle.check_survey.specs.worn.{fresh_slot, worn_among};

use base_slot::{record, slot};

// Whether a slot is one of the blob, which is that its height is noted, and at the last version.
#[tactic(auto, unfolding(crate::specs::worn::fresh_slot, meaning::specs::Lists::pick))]
fn is_worn_slot(records: &[u8], heights: &[u8], slot: usize) -> bool
    requires { (12 * slot + 12 ≤ length records.now) × (slot < length heights.now) }
    ensures { result ≡ not (fresh_slot records.now heights.now slot) }
{
    let noted = heights[slot] != 0;
    noted && record::version_of(slot::record_of(records, slot)) == u64::MAX
}

// Whether a block of the blob is at the last version: the blob's slots are those with a height noted.
pub fn is_worn(records: &[u8], heights: &[u8], n: usize) -> bool
    requires { (length records.now ≡ 12 * n) × (length heights.now ≡ n) }
    ensures { result ≡ worn_among records.now heights.now n }
{
    (0..n).any(|i| is_worn_slot(records, heights, i))
}
