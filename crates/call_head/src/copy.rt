// Bytes copied by position: the leaves of a row are copied one after the other, and their parent is found once.
ghost use Rattle.std.specs.Prelude.{◌≡◌, ◌+◌, ◌-◌, ◌/◌, ◌≤◌, length};
ghost use Rattle.meaning.specs.Edition.{Proper};
ghost use Rattle.meaning.specs.Head.{below};
ghost use Rattle.call_head.specs.copy.{payload_at, Copying, Copied};

use crate::descend;
use base_bytes::runs;
use base_slot::slot;
use meaning::Edition;

// The whole lent part becomes a stretch of a slot's payload, from `within` on; zeros where the pool has no such slot.
fn fill_payload(e: Edition, pool: &[u8], s: usize, within: usize, dst: &mut [u8])
    requires proper { Proper e }
    requires dst_bound { within + length dst.old ≤ e.leaf }
    ensures { dst.new ≡ payload_at e pool.now s within (length dst.old) }
{
    if s < pool.len() / e.size {
        runs::fill(dst, slot::block_of(e, pool, s), 16 + within);
        return;
    }
    runs::clear(dst);
}

// One stretch of the leaf in slot s put behind the first pos bytes of out; answers how many are there then, at most count.
fn copy_leaf(
    e: Edition,
    pool: &[u8],
    h: usize,
    root: usize,
    s: usize,
    place: usize,
    pos: usize,
    count: usize,
    out: &mut [u8],
) -> usize
    requires proper { Proper e }
    requires copying { Copying place pos count (length out.old) }
    requires s_value { s ≡ below e pool.now h root ((place + pos) / e.leaf) }
    ensures { Copied e pool.now h root place pos count result out.old out.new }
{
    let at = place + pos;
    let m = runs::stretch_from(e.leaf, at, count - pos);
    let end = pos + m;
    fill_payload(e, pool, s, at % e.leaf, &mut out[pos..end]);
    end
}

// The number of the row of leaves in which a place lies.
fn row_of(e: Edition, place: usize) -> usize
    requires { Proper e }
    ensures { result ≡ place / e.leaf / e.fan }
{
    place / e.leaf / e.fan
}

// One stretch of a leaf whose parent is known.
fn copy_child(
    e: Edition,
    pool: &[u8],
    h: usize,
    root: usize,
    parent: usize,
    place: usize,
    pos: usize,
    count: usize,
    out: &mut [u8],
) -> usize
    requires proper { Proper e }
    requires copying { Copying place pos count (length out.old) }
    requires fact { (h ≡ 0 → ⊥) × (parent ≡ below e pool.now (h - 1) root ((place + pos) / e.leaf / e.fan)) }
    ensures { Copied e pool.now h root place pos count result out.old out.new }
{
    let leaf = (place + pos) / e.leaf;
    let s = descend::child_at(e, pool, parent, leaf % e.fan);
    copy_leaf(e, pool, h, root, s, place, pos, count, out)
}

// The leaves of one row, from the one at place + pos on: their parent is found once. Answers how many bytes are there then.
fn copy_row(
    e: Edition,
    pool: &[u8],
    h: usize,
    root: usize,
    place: usize,
    pos: usize,
    count: usize,
    out: &mut [u8],
) -> usize
    requires proper { Proper e }
    requires copying { Copying place pos count (length out.old) }
    requires fact { h ≡ 0 → ⊥ }
    ensures { Copied e pool.now h root place pos count result out.old out.new }
{
    let row = row_of(e, place + pos);
    let parent = descend::slot_below(e, pool, h - 1, root, row);
    // Not chunks of out: the first stretch may begin inside a leaf, and each turn goes on by as many bytes as it copied.
    let mut to = pos;
    while to < count && row_of(e, place + to) == row {
        to = copy_child(e, pool, h, root, parent, place, to, count, out);
    }
    to
}

// The only leaf, or a row of leaves.
pub fn copy_some(
    e: Edition,
    pool: &[u8],
    h: usize,
    root: usize,
    place: usize,
    pos: usize,
    count: usize,
    out: &mut [u8],
) -> usize
    requires proper { Proper e }
    requires copying { Copying place pos count (length out.old) }
    ensures { Copied e pool.now h root place pos count result out.old out.new }
{
    if h == 0 {
        return copy_leaf(e, pool, h, root, root, place, pos, count, out);
    }
    copy_row(e, pool, h, root, place, pos, count, out)
}
