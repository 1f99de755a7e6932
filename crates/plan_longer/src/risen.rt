// The new blocks of a blob that are made as its root rises, drawn without writing to the store: the first at each height takes the root's row, and the
// others stand beside it.
ghost use Rattle.std.specs.Prelude.{◌≡◌, ◌+◌, ◌-◌, ◌≤◌, ◌<◌, length};
ghost use Rattle.meaning.specs.Edition.{Proper};
ghost use Rattle.laws.proofs.Codec.{items_of};
ghost use Rattle.laws_resize.specs.growth.Forms.{bulk, grown_new};
ghost use Rattle.plan_slot.specs.payload.{Draws};
ghost use Rattle.plan_longer.specs.fresh.{Grows};
ghost use Rattle.plan_longer.specs.towers.{Towers, RootBlock};

use crate::fresh::Growth;
use crate::towers::Tower;
use crate::{fresh, towers};
use meaning::Edition;
use plan_slot::payload::Drawn;
use plan_tree::{seats, subtrees};

// The new block that is made p-th, as the root rises; `number` is its number among all blocks, the old ones first.
pub fn draw_risen(
    e: Edition,
    g: Growth,
    t: Tower,
    free: &[u32],
    kept: &[u8],
    payload: &mut [u8],
    p: usize,
    number: usize,
) -> Drawn
    requires proper { Proper e }
    requires grows { Grows e g }
    requires towers { Towers e g t }
    requires root_block { RootBlock e g t kept.now }
    requires payload_len { (length payload.old ≡ e.leaf) × (p < t.taken) × (number ≡ p + t.blocks) × (bulk e.fan t.height ≤ number) }
    ensures { Draws e (grown_new e g.length g.leaves free.now (t.top - t.height) t.height (items_of t.height kept.now) p) result payload.new }
{
    let level = subtrees::level_of(e.fan, t.height, t.top, number);
    let full = subtrees::bulk(e.fan, level);
    if number == full {
        return towers::draw_top(e, g, t, free, kept, payload, level);
    }
    let j = subtrees::power(e.fan, level) - g.leaves;
    let s = seats::in_row(e.fan, level, j, number - full - 1);
    fresh::draw_fresh(e, g, free, payload, s.height, s.first, p)
}
