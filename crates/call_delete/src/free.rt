// Every block of a blob whose blocks are noted goes, slot by slot, rising.
ghost use Rattle.std.specs.Prelude.{◌≡◌, ◌<◌, length};
ghost use Rattle.meaning.specs.Change.{puts};
ghost use Rattle.check_gate.specs.Gate.{Whole};
ghost use Rattle.plan_slot.specs.change.Turns.{over};
ghost use Rattle.call_delete.specs.free.{clear_plan};

use base_slot::{record, slot};
use meaning::Edition;
use plan_slot::change;

// A slot of the blob goes, any other stays.
fn clear_slot(
    e: Edition,
    pool: &mut [u8],
    records: &mut [u8],
    heights: &[u8],
    scratch: &mut [u8],
    n: usize,
    i: usize,
)
    requires whole { Whole e n pool.old records.old }
    requires i_lt_n { (i < n) × (length heights.now ≡ n) × (length scratch.old ≡ e.size) }
    ensures pool_after { pool.new ≡ puts e.size (λ c. c.block) (clear_plan e records.old heights.now i) pool.old }
    ensures records_after { records.new ≡ puts 12 (λ c. c.line) (clear_plan e records.old heights.now i) records.old }
{
    if heights[i] == 0 {
        return;
    }
    let version = record::version_of(slot::record_of(records, i));
    change::put_free(e, pool, records, scratch, i, version);
}

// Every slot of the blob goes, rising.
pub fn clear_all(
    e: Edition,
    pool: &mut [u8],
    records: &mut [u8],
    heights: &[u8],
    scratch: &mut [u8],
    n: usize,
)
    requires whole { Whole e n pool.old records.old }
    requires heights_len { (length heights.now ≡ n) × (length scratch.old ≡ e.size) }
    ensures pool_after { pool.new ≡ puts e.size (λ c. c.block) (over (clear_plan e records.old heights.now) 0 n) pool.old }
    ensures records_after { records.new ≡ puts 12 (λ c. c.line) (over (clear_plan e records.old heights.now) 0 n) records.old }
{
    // Not one loop with a write's and a resize's: each is one call a slot, lent other slices, and a trait of plans with its law is no plainer.
    for i in 0..n {
        clear_slot(e, pool, records, heights, scratch, n, i);
    }
}
