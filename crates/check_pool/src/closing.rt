// The closing pass of the pool check: every free slot is empty, and every part was visited.
ghost use Rattle.std.specs.Prelude.{◌≡◌, ◌<◌};
ghost use Rattle.meaning.specs.Lists.{range};
ghost use Rattle.meaning.specs.Walk.{closing_check, closing};
ghost use Rattle.check_blob.specs.visit.{Sized};

use base_bytes::runs;
use base_slot::{record, slot};
use meaning::{Edition, Reason, Refusal};

// The closing pass at one slot: a free slot with a non-zero byte is 9, a part not visited is 8.
fn close_slot(
    e: Edition,
    pool: &[u8],
    records: &[u8],
    seen: &[u8],
    n: usize,
    i: usize,
) -> Result<(), Refusal>
    requires sized { Sized e n pool.now records.now seen.now }
    requires i_lt_n { i < n }
    ensures { result ≡ closing_check e n pool.now records.now seen.now i }
{
    let state = record::state_of(slot::record_of(records, i));
    if state == 0 {
        if runs::all_zero(slot::block_of(e, pool, i)) {
            return Ok(());
        }
        return Err(meaning::refuse_at(Reason::Reintroduced, i));
    }
    if state != 1 {
        return Ok(());
    }
    if seen[i] == 1 {
        return Ok(());
    }
    Err(meaning::refuse_at(Reason::WrongShape, i))
}

// The closing pass through all slots, rising.
pub fn close(e: Edition, pool: &[u8], records: &[u8], seen: &[u8], n: usize) -> Result<(), Refusal>
    requires { Sized e n pool.now records.now seen.now }
    ensures { result ≡ closing e n pool.now records.now (range 0 n) seen.now }
{
    for i in 0..n {
        let here = close_slot(e, pool, records, seen, n, i);
        // By let .. else, document 01's form where the answer's type stays the same.
        let Ok(()) = here else {
            return here;
        };
    }
    Ok(())
}
