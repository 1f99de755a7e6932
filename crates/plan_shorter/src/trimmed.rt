// What an old block holds that gets less, drawn without writing to the store: the height and count of the block, and the payload in a lent part.
ghost use Rattle.std.specs.Prelude.{◌≡◌, suc, ◌+◌, ◌-◌, ◌*◌, ◌^◌, ◌≤◌, ◌<◌, length, take};
ghost use Rattle.meaning.specs.Edition.{Proper};
ghost use Rattle.meaning.specs.Bytes.{count_of, data_of, children_of};
ghost use Rattle.meaning.specs.Shape.{up, leaves_for, most_count};
ghost use Rattle.laws.proofs.Codec.{items_of};
ghost use Rattle.laws_resize.specs.growth.Cuts.{cut_row};
ghost use Rattle.plan_slot.specs.payload.{Draws};

use base_slot::fields;
use meaning::Edition;
use plan_slot::payload;
use plan_slot::payload::Drawn;
use plan_tree::subtrees;

// An old leaf of a blob that is cut to `short` bytes: it keeps its bytes below the cut.
fn cut_leaf(e: Edition, short: usize, block: &[u8], payload: &mut [u8], first: usize) -> Drawn
    requires proper { Proper e }
    requires payload_len { (length payload.old ≡ e.leaf) × (first ≤ 2 ^ 50) }
    requires block_len { (length block.now ≡ e.size) × (count_of block.now ≤ e.leaf) }
    ensures { Draws e (record { height = 0; items = cut_row e short 0 first (data_of block.now) }) result payload.new }
{
    let count = fields::count_of(block);
    let kept = count.min(payload::share_of(e, short, first));
    payload::copy_payload(payload, block, kept);
    Drawn {
        height: 0,
        count: kept as u8,
    }
}

// An old inner block, one higher than `below`, of a blob that is cut to so many leaves: it keeps the children that have leaves left.
fn cut_inner(
    e: Edition,
    leaves: usize,
    block: &[u8],
    payload: &mut [u8],
    below: usize,
    first: usize,
) -> Drawn
    requires proper { Proper e }
    requires payload_len { (length payload.old ≡ e.leaf) × (below < 255) × (e.fan ^ below ≤ 2 ^ 50) × (leaves ≤ 2 ^ 50) }
    requires block_len { (length block.now ≡ e.size) × (count_of block.now ≤ e.fan) }
    ensures { Draws e (record { height = suc below; items = take (up (leaves - first) (e.fan ^ below)) (children_of block.now) }) result payload.new }
{
    let count = fields::count_of(block);
    let kept = subtrees::places(e.fan, leaves, count, below, first);
    payload::copy_payload(payload, block, 4 * kept);
    Drawn {
        height: (below + 1) as u8,
        count: kept as u8,
    }
}

// An old block of height h of a blob that is cut to `short` bytes, so that it has that many leaves: a leaf keeps its bytes below the cut, an inner
// block the children that have leaves left.
pub fn draw_cut(
    e: Edition,
    short: usize,
    leaves: usize,
    block: &[u8],
    payload: &mut [u8],
    h: usize,
    first: usize,
) -> Drawn
    requires proper { Proper e }
    requires leaves_value { (leaves ≡ leaves_for e.leaf short) × (leaves ≤ 2 ^ 50) }
    requires payload_len { (length payload.old ≡ e.leaf) × (h < 256) × (e.fan ^ h ≤ 2 ^ 50) × (first ≤ 2 ^ 50) }
    requires block_len { (length block.now ≡ e.size) × (count_of block.now ≤ most_count e h) }
    ensures { Draws e (record { height = h; items = cut_row e short h first (items_of h block.now) }) result payload.new }
{
    if h == 0 {
        return cut_leaf(e, short, block, payload, first);
    }
    cut_inner(e, leaves, block, payload, h - 1, first)
}
