// What every reading call on one blob does first: refusal 3, then the blob check.
ghost use Rattle.std.specs.Prelude.{◌≡◌, replicate};
ghost use Rattle.meaning.specs.Edition.{Proper};
ghost use Rattle.check_gate.specs.Gate.{Whole};
ghost use Rattle.check_blob.specs.notes.{met};
ghost use Rattle.check_blob.specs.Rooted.{open_noted};

use crate::walk;
use meaning::{Edition, Reason, Refusal};

// The blob's bytes and leaves, whose slots are noted in the row; or the refusal.
pub fn open_blob(
    e: Edition,
    pool: &[u8],
    records: &[u8],
    seen: &mut [u8],
    row: &mut [u32],
    n: usize,
    root: u64,
) -> Result<(u64, usize), Refusal>
    requires proper { Proper e }
    requires whole { Whole e n pool.now records.now }
    requires seen_value { seen.old ≡ replicate n 0 }
    ensures { met result seen.new row.new ≡ open_noted e n pool.now records.now root row.old }
{
    if !check_gate::is_root(records, n, root) {
        return Err(meaning::refuse_nowhere(Reason::NotARoot));
    }
    walk::from_root(e, pool, records, seen, row, n, root as usize)
}
