// What an old block holds that gets more, drawn without writing to the store: the height and count of the block, and the payload in a lent part.
ghost use Rattle.std.specs.Prelude.{◌≡◌, suc, ◌^◌, ◌≤◌, ◌<◌, length};
ghost use Rattle.meaning.specs.Lists.{padded};
ghost use Rattle.meaning.specs.Edition.{Proper};
ghost use Rattle.meaning.specs.Bytes.{count_of, data_of, children_of};
ghost use Rattle.meaning.specs.Shape.{most_count};
ghost use Rattle.meaning.specs.Resize.{share};
ghost use Rattle.laws.proofs.Codec.{items_of};
ghost use Rattle.laws_resize.specs.growth.Forms.{grown_row};
ghost use Rattle.plan_slot.specs.payload.{Draws};
ghost use Rattle.plan_longer.specs.fresh.{Grows};

use crate::fresh;
use crate::fresh::Growth;
use base_slot::fields;
use meaning::Edition;
use plan_slot::payload;
use plan_slot::payload::Drawn;
use plan_tree::edge;

// An old leaf of a blob that gets longer: it fills with zeros.
fn grown_leaf(e: Edition, long: usize, block: &[u8], payload: &mut [u8], first: usize) -> Drawn
    requires proper { Proper e }
    requires payload_len { (length payload.old ≡ e.leaf) × (first ≤ 2 ^ 50) }
    requires block_len { (length block.now ≡ e.size) × (count_of block.now ≤ share e long first) }
    ensures { Draws e (record { height = 0; items = padded (share e long first) (data_of block.now) }) result payload.new }
{
    let filled = payload::share_of(e, long, first);
    payload::copy_payload(payload, block, fields::count_of(block));
    Drawn {
        height: 0,
        count: filled as u8,
    }
}

// An old inner block, one higher than `below`, of a blob that gets longer: it gets new children.
fn grown_inner(
    e: Edition,
    g: Growth,
    free: &[u32],
    block: &[u8],
    payload: &mut [u8],
    below: usize,
) -> Drawn
    requires proper { Proper e }
    requires grows { Grows e g }
    requires payload_len { (length payload.old ≡ e.leaf) × (below < 255) × (e.fan ^ below ≤ 2 ^ 50) }
    requires block_len { (length block.now ≡ e.size) × (count_of block.now ≤ e.fan) }
    ensures { Draws e (record { height = suc below; items = grown_row e g.length g.leaves free.now (suc below) 0 (children_of block.now) }) result payload.new }
{
    let count = fields::count_of(block);
    payload::copy_payload(payload, block, 4 * count);
    let room = edge::room(e.fan, below, g.leaves);
    let space = edge::space(e.fan, below, g.leaves);
    let c = fresh::put_children(e, g, free, payload, count, below, room, space);
    Drawn {
        height: (below + 1) as u8,
        count: (count + c) as u8,
    }
}

// An old block of height h that stays where it is, and whose first leaf has that number: a leaf fills with zeros, an inner block gets new children.
pub fn draw_grown(
    e: Edition,
    g: Growth,
    free: &[u32],
    block: &[u8],
    payload: &mut [u8],
    h: usize,
    first: usize,
) -> Drawn
    requires proper { Proper e }
    requires grows { Grows e g }
    requires payload_len { (length payload.old ≡ e.leaf) × (h < 256) × (e.fan ^ h ≤ 2 ^ 50) × (first ≤ 2 ^ 50) }
    requires block_len { (length block.now ≡ e.size) × (count_of block.now ≤ most_count e h) × (h ≡ 0 → count_of block.now ≤ share e g.length first) }
    ensures { Draws e (record { height = h; items = grown_row e g.length g.leaves free.now h first (items_of h block.now) }) result payload.new }
{
    if h == 0 {
        return grown_leaf(e, g.length, block, payload, first);
    }
    grown_inner(e, g, free, block, payload, h - 1)
}
