// A blob that gets shorter: what a block becomes that stays. Nothing is stored here.
ghost use Rattle.std.specs.Prelude.{◌≡◌, List, ℕ, ◌^◌, ◌≤◌, ◌<◌, length};
ghost use Rattle.meaning.specs.Edition.{Proper};
ghost use Rattle.meaning.specs.Bytes.{count_of, last_version};
ghost use Rattle.meaning.specs.Shape.{most_count};
ghost use Rattle.laws.proofs.Codec.{items_of};
ghost use Rattle.laws_resize.specs.growth.Cuts.{cut_row};
ghost use Rattle.plan_slot.specs.turn.{turned, Rises};
ghost use Rattle.plan_slot.specs.renewal.{renewal};
ghost use Rattle.plan_tree.specs.cuts.{Cuts};

use crate::trimmed;
use meaning::Edition;
use plan_slot::turn;
use plan_slot::turn::Turn;
use plan_tree::cuts::Cut;

// What a block becomes, of that height and first leaf and with that row, whose slot holds the block `old`.
pub fn plan_kept(
    e: Edition,
    c: Cut,
    old: &[u8],
    row: &[u8],
    payload: &mut [u8],
    h: usize,
    first: usize,
) -> Turn
    requires proper { Proper e }
    requires cuts { Cuts e c }
    requires payload_len { (length payload.old ≡ e.leaf) × (h < 256) × (e.fan ^ h ≤ 2 ^ 50) × (first ≤ 2 ^ 50) }
    requires len { (length old.now ≡ e.size) × (length row.now ≡ e.size) × (count_of row.now ≤ most_count e h) }
    ensures by_index { (R : List ℕ) (s : ℕ) → turned e R s result payload.new ≡ renewal e R s old.now (record { height = h; items = cut_row e c.length h first (items_of h row.now) }) }
    ensures by_index_2 { (v : ℕ) → v < last_version → Rises result v }
{
    let d = trimmed::draw_cut(e, c.length, c.leaves, row, payload, h, first);
    turn::renewed(old, d)
}
