// The walk from one root, from its own height on.
ghost use Rattle.std.specs.Prelude.{◌≡◌, ◌≤◌, ◌<◌};
ghost use Rattle.meaning.specs.Edition.{Proper};
ghost use Rattle.check_blob.specs.visit.{Sized};
ghost use Rattle.check_blob.specs.notes.{met, note_root};

use crate::descent;
use base_slot::{fields, slot};
use meaning::{Edition, Refusal};

// The walk from one root. The slots of the blob's leaves are noted in the row, as far as it reaches.
pub fn from_root(
    e: Edition,
    pool: &[u8],
    records: &[u8],
    seen: &mut [u8],
    row: &mut [u32],
    n: usize,
    slot: usize,
) -> Result<(u64, usize), Refusal>
    requires proper { Proper e }
    requires sized { Sized e n pool.now records.now seen.old }
    requires slot_lt_n { (slot < n) × (n ≤ e.most) }
    ensures { met result seen.new row.new ≡ note_root e n pool.now records.now seen.old slot row.old }
{
    // A root that claims more than the top is walked as one at the top, and fails check 3.
    let h = fields::height_of(slot::block_of(e, pool, slot)).min(e.top);
    descent::visit_root(e, pool, records, seen, row, n, h, slot)
}
