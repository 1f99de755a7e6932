// Where a leaf's data bytes lie in the pool, by the row of a blob's leaf slots.
ghost use Rattle.std.specs.Prelude.{◌≡◌, ◌*◌, ◌≤◌, length, take};
ghost use Rattle.meaning.specs.Edition.{Proper};
ghost use Rattle.meaning.specs.Answers.{leaf_answer};
ghost use Rattle.call_show.specs.place.{Below, Lies, show_spelt};

use base_slot::{fields, slot};
use meaning::{Edition, Reason, Refusal};

// Refusal 10, or the place of leaf number i, of the leaves in the row's first k slots.
pub fn leaf_found(
    e: Edition,
    pool: &[u8],
    row: &[u32],
    n: usize,
    k: usize,
    i: u64,
) -> Result<(usize, usize), Refusal>
    requires proper { Proper e }
    requires k_in_bounds { (k ≤ length row.now) × (length pool.now ≡ e.size * n) }
    requires below { Below e n pool.now (take k row.now) }
    ensures value { result ≡ leaf_answer e (show_spelt e pool.now i (take k row.now)) }
    ensures lies { Lies result (length pool.now) }
{
    if k as u64 <= i {
        return Err(meaning::refuse_nowhere(Reason::OutOfRange));
    }
    let at = i as usize;
    let slot = check_blob::row::slot_at(row, at);
    let count = fields::count_of(slot::block_of(e, pool, slot));
    Ok((slot::payload_start(e, pool, slot), count))
}
