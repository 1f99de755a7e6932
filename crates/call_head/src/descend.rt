// The descent by position: from the root to the block that holds a place, with no record and no check. Any pool and any numbers may come in.
ghost use Rattle.std.specs.Prelude.{◌≡◌, ◌<◌};
ghost use Rattle.meaning.specs.Edition.{Proper};
ghost use Rattle.meaning.specs.Head.{child_at, below, height_at};

use base_slot::{fields, slot};
use meaning::Edition;

// A block's child number i; 0 where the pool has no such slot.
pub fn child_at(e: Edition, pool: &[u8], s: usize, i: usize) -> usize
    requires proper { Proper e }
    requires i_lt_fan { i < e.fan }
    ensures { result ≡ child_at e pool.now s i }
{
    if s < pool.len() / e.size {
        return fields::child_of(slot::block_of(e, pool, s), i);
    }
    0
}

// The descent for any number of heights, from a block to its child.
fn far_below(e: Edition, pool: &[u8], d: usize, root: usize, j: usize) -> usize
    requires { Proper e }
    ensures { result ≡ below e pool.now d root j }
{
    if d == 0 {
        return root;
    }
    let parent = far_below(e, pool, d - 1, root, j / e.fan);
    child_at(e, pool, parent, j % e.fan)
}

// Two heights at once: the slot of the j-th block that lies two heights below a block.
fn two_below(e: Edition, pool: &[u8], s: usize, j: usize) -> usize
    requires { Proper e }
    ensures { result ≡ below e pool.now 2 s j }
{
    let upper = child_at(e, pool, s, j / e.fan % e.fan);
    child_at(e, pool, upper, j % e.fan)
}

// The descent above the last two heights: up to two are taken here, and more by `far_below`.
fn near_below(e: Edition, pool: &[u8], d: usize, root: usize, j: usize) -> usize
    requires { Proper e }
    ensures { result ≡ below e pool.now d root j }
{
    if d == 0 {
        return root;
    }
    if d == 1 {
        return child_at(e, pool, root, j % e.fan);
    }
    if d == 2 {
        return two_below(e, pool, root, j);
    }
    far_below(e, pool, d, root, j)
}

// The descent by position: the slot of the j-th block that lies d heights below the root. Up to four heights, the farthest that the parent of a row of
// leaves lies below a root in edition one, are taken without `far_below`, which calls itself: the last two by `two_below` and those above by `near_below`. Neither
// calls itself: the compiler puts both in place, knows the edition's numbers there, and divides by none.
pub fn slot_below(e: Edition, pool: &[u8], d: usize, root: usize, j: usize) -> usize
    requires { Proper e }
    ensures { result ≡ below e pool.now d root j }
{
    if d == 0 {
        return root;
    }
    if d == 1 {
        return child_at(e, pool, root, j % e.fan);
    }
    let at = near_below(e, pool, d - 2, root, j / e.fan / e.fan);
    two_below(e, pool, at, j)
}

// A root's height, at most the edition's.
pub fn height_at(e: Edition, pool: &[u8], root: usize) -> usize
    requires { Proper e }
    ensures { result ≡ height_at e pool.now root }
{
    if root < pool.len() / e.size {
        let h = fields::height_of(slot::block_of(e, pool, root));
        return h.min(e.top);
    }
    0
}
