// Refusal 11 of resize: whether the free slots are enough.
ghost use Rattle.std.specs.Prelude.{◌≡◌, ◌-◌, ◌^◌, ◌≤◌, ltb};
ghost use Rattle.meaning.specs.Edition.{Proper};
ghost use Rattle.meaning.specs.Shape.{leaves_for, total};

use crate::shape;
use meaning::Edition;

// Refusal 11: whether more new blocks are needed than slots are free. A blob that gets no more leaves needs none, and no block total is asked for.
pub fn lacks_room(e: Edition, leaves: usize, long: u64, free: usize) -> bool
    requires proper { Proper e }
    requires leaves_bound { (leaves ≤ 2 ^ 32) × (free ≤ 2 ^ 32) }
    ensures { result ≡ ltb free (total e.fan (leaves_for e.leaf long) - total e.fan leaves) }
{
    let want = shape::leaf_count(e.leaf as u64, long);
    if want <= leaves as u64 {
        return false;
    }
    let fan = e.fan as u64;
    let have = shape::block_total(fan, leaves as u64);
    let need = shape::block_total(fan, want);
    have + (free as u64) < need
}
