// What a new block of a blob that gets longer holds, and a root that got higher, drawn without writing to the store: the height and count of the block,
// and the payload in a lent part.
ghost use Rattle.std.specs.Prelude.{◌≡◌, map, suc, ◌+◌, ◌-◌, ◌*◌, ◌^◌, ◌≤◌, ◌<◌, length};
ghost use Rattle.meaning.specs.Lists.{joined, bytes, pasted};
ghost use Rattle.meaning.specs.Edition.{Proper};
ghost use Rattle.laws_resize.specs.growth.Forms.{every, bulk, places, fresh_cell, above, new_bytes};
ghost use Rattle.plan_slot.specs.payload.{Draws};
ghost use Rattle.plan_longer.specs.fresh.{Grows};

use base_bytes::runs;
use meaning::Edition;
use plan_slot::payload;
use plan_slot::payload::Drawn;
use plan_tree::subtrees;

// A blob that gets longer: its new length, the leaves that it has, and those that it gets.
#[derive(Clone, Copy, Drop)]
pub struct Growth {
    pub length: usize,
    pub leaves: usize,
    pub more: usize,
}

// New children of height `below` behind the first `at` of a block's, as many as fit of those that the new leaves from j on need; the first is the new
// block k. Answers how many.
pub fn put_children(
    e: Edition,
    g: Growth,
    free: &[u32],
    payload: &mut [u8],
    at: usize,
    below: usize,
    j: usize,
    k: usize,
) -> usize
    requires proper { Proper e }
    requires grows { Grows e g }
    requires payload_len { (length payload.old ≡ e.leaf) × (at ≤ e.fan) × (e.fan ^ below ≤ 2 ^ 50) × (k ≤ 2 ^ 52) }
    ensures value { (result ≡ places e.fan g.more (e.fan - at) below j) × (result ≤ e.fan - at) }
    ensures payload_after { payload.new ≡ pasted (4 * at) (joined (map (bytes 4) (every free.now (bulk e.fan below) result k))) payload.old }
{
    let c = subtrees::places(e.fan, g.more, e.fan - at, below, j);
    let step = subtrees::bulk(e.fan, below);
    payload::put_slots(payload, at, free, k, step, c);
    c
}

// A new inner block, one higher than `below`, that is made k-th and whose first leaf is the new leaf j.
fn fresh_inner(
    e: Edition,
    g: Growth,
    free: &[u32],
    payload: &mut [u8],
    below: usize,
    j: usize,
    k: usize,
) -> Drawn
    requires proper { Proper e }
    requires grows { Grows e g }
    requires payload_len { (length payload.old ≡ e.leaf) × (below < 255) × (e.fan ^ below ≤ 2 ^ 50) × (k ≤ 2 ^ 51) }
    ensures { Draws e (fresh_cell e.fan g.more (new_bytes e g.length g.leaves free.now) free.now (suc below) j k) result payload.new }
{
    runs::clear(payload);
    let c = put_children(e, g, free, payload, 0, below, j, k + 1);
    Drawn {
        height: (below + 1) as u8,
        count: c as u8,
    }
}

// The new block that is made k-th, of height h, whose first leaf is the new leaf j: a leaf of zeros, or an inner block.
pub fn draw_fresh(
    e: Edition,
    g: Growth,
    free: &[u32],
    payload: &mut [u8],
    h: usize,
    j: usize,
    k: usize,
) -> Drawn
    requires proper { Proper e }
    requires grows { Grows e g }
    requires payload_len { (length payload.old ≡ e.leaf) × (h < 256) × (e.fan ^ h ≤ 2 ^ 50) × (j ≤ 2 ^ 49) × (k ≤ 2 ^ 51) }
    ensures { Draws e (fresh_cell e.fan g.more (new_bytes e g.length g.leaves free.now) free.now h j k) result payload.new }
{
    if h == 0 {
        runs::clear(payload);
        let share = payload::share_of(e, g.length, g.leaves + j);
        return Drawn {
            height: 0,
            count: share as u8,
        };
    }
    fresh_inner(e, g, free, payload, h - 1, j, k)
}

// A root one higher than a full one of height h: its row went to the new block b, and new children stand beside, from the new leaf j on.
pub fn draw_above(
    e: Edition,
    g: Growth,
    free: &[u32],
    payload: &mut [u8],
    h: usize,
    j: usize,
    b: usize,
) -> Drawn
    requires proper { Proper e }
    requires grows { Grows e g }
    requires payload_len { (length payload.old ≡ e.leaf) × (h < 255) × (e.fan ^ h ≤ 2 ^ 50) × (b ≤ 2 ^ 51) }
    ensures { Draws e (above e.fan g.more (new_bytes e g.length g.leaves free.now) free.now h j b) result payload.new }
{
    runs::clear(payload);
    payload::put_slots(payload, 0, free, b, 0, 1);
    let c = put_children(e, g, free, payload, 1, h, j, b + 1);
    Drawn {
        height: (h + 1) as u8,
        count: (c + 1) as u8,
    }
}
