// A new block of a blob that gets longer, drawn without writing to the store: it stands on the old right edge, or is made as the root rises.
ghost use Rattle.std.specs.Prelude.{◌≡◌, ◌+◌, ◌-◌, ◌<◌, length};
ghost use Rattle.meaning.specs.Edition.{Proper};
ghost use Rattle.laws.proofs.Codec.{items_of};
ghost use Rattle.laws_resize.specs.growth.Forms.{grown_new};
ghost use Rattle.plan_slot.specs.payload.{Draws};
ghost use Rattle.plan_longer.specs.fresh.{Grows};
ghost use Rattle.plan_longer.specs.towers.{Towers, RootBlock};

use crate::fresh::Growth;
use crate::towers::Tower;
use crate::{fresh, risen};
use meaning::Edition;
use plan_slot::payload::Drawn;
use plan_tree::{seats, subtrees};

// The new block that is made p-th: on the right edge, or as the root rises.
pub fn draw_new(
    e: Edition,
    g: Growth,
    t: Tower,
    free: &[u32],
    kept: &[u8],
    payload: &mut [u8],
    p: usize,
) -> Drawn
    requires proper { Proper e }
    requires grows { Grows e g }
    requires towers { Towers e g t }
    requires root_block { RootBlock e g t kept.now }
    requires payload_len { (length payload.old ≡ e.leaf) × (p < t.taken) }
    ensures { Draws e (grown_new e g.length g.leaves free.now (t.top - t.height) t.height (items_of t.height kept.now) p) result payload.new }
{
    let number = p + t.blocks;
    if number < subtrees::bulk(e.fan, t.height) {
        let s = seats::edge_seat(e.fan, t.height, g.leaves, p);
        return fresh::draw_fresh(e, g, free, payload, s.height, s.first, p);
    }
    risen::draw_risen(e, g, t, free, kept, payload, p, number)
}
