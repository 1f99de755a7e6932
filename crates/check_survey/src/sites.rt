// Where the blocks of a blob stand: for each slot the height of its block and the number of its first leaf, noted in two lent rows.
// The blob was found by the pool check, so nothing is checked here.
ghost use Rattle.std.specs.Prelude.{◌≡◌, ◌+◌, drop};
ghost use Rattle.meaning.specs.Lists.{fours};
ghost use Rattle.meaning.specs.Edition.{Proper};
ghost use Rattle.meaning.specs.Bytes.{block};
ghost use Rattle.laws_resize.specs.growth.Sites.{sites_of};
ghost use Rattle.check_survey.specs.sites.Spelt.{blob_at, tree_sites, row_sites, tree_leaves, row_leaves};
ghost use Rattle.check_survey.specs.sites.Marks.{Marked, BlockStart, RowStart, SitesStart};

use crate::marks;
use base_slot::{fields, slot};
use check_blob::visit;
use meaning::Edition;

// Notes a root of height h and all below it: the root, which stands in no row, and then its row. A function of its own: with a second caller the compiler
// calls `note_block` for each leaf, and a write of one byte took a seventh more.
fn note_root(
    e: Edition,
    pool: &[u8],
    heights: &mut [u8],
    firsts: &mut [u32],
    n: usize,
    h: usize,
    root: usize,
)
    requires proper { Proper e }
    requires block_start { BlockStart e n pool.now heights.old firsts.old h root 0 }
    ensures { Marked (tree_sites e pool.now h 0 root) heights.old firsts.old heights.new firsts.new }
{
    marks::note_slot(heights, firsts, root, h, 0);
    if h == 0 {
        return;
    }
    let count = fields::count_of(slot::block_of(e, pool, root));
    note_row(e, pool, heights, firsts, n, h - 1, root, count, 0);
}

// Notes a block of height h and all below it, after that many leaves. Answers how many leaves there are then.
#[cycle(note_block_note_row)]
fn note_block(
    e: Edition,
    pool: &[u8],
    heights: &mut [u8],
    firsts: &mut [u32],
    n: usize,
    h: usize,
    slot: usize,
    leaves: usize,
) -> usize
    requires proper { Proper e }
    requires block_start { BlockStart e n pool.now heights.old firsts.old h slot leaves }
    ensures marked { Marked (tree_sites e pool.now h leaves slot) heights.old firsts.old heights.new firsts.new }
    ensures value { result ≡ leaves + tree_leaves e pool.now h slot }
{
    marks::note_slot(heights, firsts, slot, h, leaves);
    if h == 0 {
        return leaves + 1;
    }
    let count = fields::count_of(slot::block_of(e, pool, slot));
    note_row(e, pool, heights, firsts, n, h - 1, slot, count, leaves)
}

// Notes the children of a block, so many, each of height w, in order.
#[cycle(note_block_note_row)]
fn note_row(
    e: Edition,
    pool: &[u8],
    heights: &mut [u8],
    firsts: &mut [u32],
    n: usize,
    w: usize,
    parent: usize,
    count: usize,
    leaves: usize,
) -> usize
    requires proper { Proper e }
    requires row_start { RowStart e n pool.now heights.old firsts.old w parent 0 count leaves }
    ensures marked { Marked (row_sites e pool.now w leaves (fours count (drop 16 (block e pool.now parent)))) heights.old firsts.old heights.new firsts.new }
    ensures value { result ≡ leaves + row_leaves e pool.now w (fours count (drop 16 (block e pool.now parent))) }
{
    let mut k = leaves;
    for from in 0..count {
        let child = visit::child_of(e, pool, parent, from);
        k = note_block(e, pool, heights, firsts, n, w, child, k);
    }
    k
}

// Notes the blocks of the blob with that root.
pub fn note_sites(
    e: Edition,
    pool: &[u8],
    heights: &mut [u8],
    firsts: &mut [u32],
    n: usize,
    root: usize,
)
    requires proper { Proper e }
    requires sites_start { SitesStart e n pool.now heights.old firsts.old root }
    ensures { Marked (sites_of (blob_at e pool.now root)) heights.old firsts.old heights.new firsts.new }
{
    let h = fields::height_of(slot::block_of(e, pool, root));
    note_root(e, pool, heights, firsts, n, h, root)
}
