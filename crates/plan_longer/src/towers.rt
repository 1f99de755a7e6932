// A blob that gets longer: its numbers, and what its root holds at each height that it rises to, drawn without writing to the store.
ghost use Rattle.std.specs.Prelude.{◌≡◌, ◌≤◌, length};
ghost use Rattle.meaning.specs.Edition.{Proper};
ghost use Rattle.laws.proofs.Codec.{items_of};
ghost use Rattle.laws_resize.specs.rising.{top_at};
ghost use Rattle.plan_slot.specs.payload.{Draws};
ghost use Rattle.plan_longer.specs.fresh.{Grows};
ghost use Rattle.plan_longer.specs.towers.{Towers, RootBlock};

use crate::fresh::Growth;
use crate::{extended, fresh};
use meaning::Edition;
use plan_slot::payload::Drawn;
use plan_tree::subtrees;

// How high a blob is that gets longer and how high it will be; its blocks, and how many slots are taken.
#[derive(Clone, Copy, Drop)]
pub struct Tower {
    pub height: usize,
    pub top: usize,
    pub blocks: usize,
    pub taken: usize,
}

// What the root holds when it is full at that height. `kept` is the root's block as it was.
pub fn draw_top(
    e: Edition,
    g: Growth,
    t: Tower,
    free: &[u32],
    kept: &[u8],
    payload: &mut [u8],
    level: usize,
) -> Drawn
    requires proper { Proper e }
    requires grows { Grows e g }
    requires towers { Towers e g t }
    requires root_block { RootBlock e g t kept.now }
    requires payload_len { (length payload.old ≡ e.leaf) × (t.height ≤ level) × (level ≤ t.top) }
    ensures { Draws e (top_at e g.length g.leaves t.blocks free.now t.height (items_of t.height kept.now) level) result payload.new }
{
    if level == t.height {
        return extended::draw_grown(e, g, free, kept, payload, level, 0);
    }
    let below = level - 1;
    let j = subtrees::power(e.fan, below) - g.leaves;
    let b = subtrees::bulk(e.fan, below) - t.blocks;
    fresh::draw_above(e, g, free, payload, below, j, b)
}
