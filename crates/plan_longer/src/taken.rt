// A blob that gets longer: what a slot becomes that it has not, by how many usable slots lie below it. Nothing is stored here.
ghost use Rattle.std.specs.Prelude.{◌≡◌, ◌+◌, ◌*◌, ◌≤◌, length};
ghost use Rattle.meaning.specs.Edition.{Proper};
ghost use Rattle.meaning.specs.Bytes.{recorded};
ghost use Rattle.plan_longer.specs.fresh.{Grows};
ghost use Rattle.plan_slot.specs.turn.{turned, Rises};
ghost use Rattle.plan_longer.specs.towers.{Towers, RootBlock};
ghost use Rattle.plan_longer.specs.taken.{free_plan};

use crate::added;
use crate::fresh::Growth;
use crate::towers::Tower;
use base_slot::usable;
use meaning::Edition;
use plan_slot::turn::Turn;

// What a slot becomes that is none of the blob, where so many usable slots lie below it: it is taken, or it stays.
pub fn plan_free(
    e: Edition,
    g: Growth,
    t: Tower,
    records: &[u8],
    free: &[u32],
    kept: &[u8],
    payload: &mut [u8],
    i: usize,
    below: usize,
) -> Turn
    requires proper { Proper e }
    requires grows { Grows e g }
    requires towers { Towers e g t }
    requires root_block { RootBlock e g t kept.now }
    requires payload_len { (length payload.old ≡ e.leaf) × (12 * i + 12 ≤ length records.now) }
    ensures payload_after { turned e records.now i result payload.new ≡ free_plan e g t records.now free.now kept.now below i }
    ensures rises { Rises result (recorded records.now i) }
{
    if t.taken <= below {
        return Turn::Stays;
    }
    if !usable::is_usable(records, i) {
        return Turn::Stays;
    }
    let d = added::draw_new(e, g, t, free, kept, payload, below);
    Turn::Takes(d)
}
