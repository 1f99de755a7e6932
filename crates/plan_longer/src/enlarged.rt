// A blob that gets longer: what the slots become that it has, its root and its other blocks by where they stand. Nothing is stored here.
ghost use Rattle.std.specs.Prelude.{◌≡◌, ◌-◌, ◌^◌, ◌≤◌, eqb, length, get_or};
ghost use Rattle.meaning.specs.Lists.{both};
ghost use Rattle.meaning.specs.Edition.{Proper};
ghost use Rattle.meaning.specs.Bytes.{block, height_of, count_of};
ghost use Rattle.meaning.specs.Resize.{share};
ghost use Rattle.plan_longer.specs.fresh.{Grows};
ghost use Rattle.plan_longer.specs.towers.{Towers, RootBlock};
ghost use Rattle.plan_longer.specs.enlarged.{Spot, Redraws, root_end, old_end};

use crate::fresh::Growth;
use crate::towers::Tower;
use crate::{extended, towers};
use base_slot::{fields, slot};
use check_survey::marks::Notes;
use meaning::Edition;
use plan_slot::turn::Turn;
use plan_slot::{payload, turn};

// What the root becomes. `kept` is its block as it was.
pub fn plan_root(
    e: Edition,
    g: Growth,
    t: Tower,
    free: &[u32],
    kept: &[u8],
    payload: &mut [u8],
) -> Turn
    requires proper { Proper e }
    requires grows { Grows e g }
    requires towers { Towers e g t }
    requires root_block { RootBlock e g t kept.now }
    requires payload_len { length payload.old ≡ e.leaf }
    ensures { Redraws e kept.now (root_end e g t free.now kept.now) result payload.new }
{
    let d = towers::draw_top(e, g, t, free, kept, payload, t.top);
    turn::renewed(kept, d)
}

// Whether a block is a leaf that has all the bytes that it is to have.
#[tactic(auto, unfolding(meaning::specs::Lists::both))]
fn is_settled(e: Edition, long: usize, block: &[u8], h: usize, first: usize) -> bool
    requires proper { Proper e }
    requires in_bounds { (16 ≤ length block.now) × (first ≤ 2 ^ 50) }
    ensures { result ≡ both (eqb h 0) (both (eqb (height_of block.now) 0) (eqb (count_of block.now) (share e long first))) }
{
    h == 0
        && fields::height_of(block) == 0
        && fields::count_of(block) == payload::share_of(e, long, first)
}

// What another block of the blob becomes, by where it stands. A leaf that stays is not drawn.
pub fn plan_old(
    e: Edition,
    g: Growth,
    pool: &[u8],
    free: &[u32],
    notes: Notes,
    payload: &mut [u8],
    i: usize,
) -> Turn
    requires proper { Proper e }
    requires grows { Grows e g }
    requires spot { Spot e g pool.now notes.heights.now notes.firsts.now i }
    requires payload_len { (length payload.old ≡ e.leaf) × (1 ≤ get_or notes.heights.now i 0) }
    ensures { Redraws e (block e pool.now i) (old_end e g pool.now free.now notes.entry.heights.now notes.entry.firsts.now i) result payload.new }
{
    let h = notes.heights[i] as usize - 1;
    let first = notes.first_at(i);
    let block = slot::block_of(e, pool, i);
    if is_settled(e, g.length, block, h, first) {
        return Turn::Stays;
    }
    let d = extended::draw_grown(e, g, free, block, payload, h, first);
    turn::renewed(block, d)
}
