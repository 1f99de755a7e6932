// The block that is kept before any slot of its blob is stored: the root's, or one of the left edge below it.
ghost use Rattle.std.specs.Prelude.{◌≡◌, ℕ, ◌+◌, ◌*◌, ◌≤◌, length};
ghost use Rattle.meaning.specs.Edition.{Proper};
ghost use Rattle.meaning.specs.Bytes.{block};
ghost use Rattle.plan_slot.specs.keep.{first_below};

use base_bytes::runs;
use base_slot::slot;
use check_blob::visit;
use meaning::Edition;

// The root's block, kept in a lent part.
pub fn keep_root(e: Edition, pool: &[u8], kept: &mut [u8], root: usize)
    requires { (e.size * root + e.size ≤ length pool.now) × (length kept.old ≡ e.size) }
    ensures { kept.new ≡ block e pool.now root }
{
    runs::fill(kept, slot::block_of(e, pool, root), 0);
}

// The slot of the left edge's block, so many steps of first children below the one in that slot.
fn left_slot(e: Edition, pool: &[u8], slot: usize, steps: usize) -> usize
    requires proper { Proper e }
    requires by_index { (k : ℕ) → k ≤ steps → e.size * first_below e pool.now slot k + e.size ≤ length pool.now }
    ensures { result ≡ first_below e pool.now slot steps }
{
    let mut at = slot;
    for _ in 0..steps {
        at = visit::child_of(e, pool, at, 0);
    }
    at
}

// The block so many steps of first children below the one in that slot, copied.
pub fn keep_left(e: Edition, pool: &[u8], kept: &mut [u8], slot: usize, steps: usize)
    requires proper { Proper e }
    requires by_index { (k : ℕ) → k ≤ steps → e.size * first_below e pool.now slot k + e.size ≤ length pool.now }
    requires kept_len { length kept.old ≡ e.size }
    ensures { kept.new ≡ block e pool.now (first_below e pool.now slot steps) }
{
    let from = left_slot(e, pool, slot, steps);
    runs::fill(kept, slot::block_of(e, pool, from), 0);
}
