// A blob made shorter or longer, past every refusal: the numbers that are worked out beforehand, then every slot of the blob and
// every slot that is taken, rising.
ghost use Rattle.std.specs.Prelude.{◌≡◌, ◌+◌, ◌*◌, ◌^◌, ◌≤◌, length};
ghost use Rattle.meaning.specs.Edition.{Proper};
ghost use Rattle.meaning.specs.Bytes.{block, height_of};
ghost use Rattle.meaning.specs.Change.{puts};
ghost use Rattle.call_resize.specs.fit.Measures.{Measures};
ghost use Rattle.call_resize.specs.fit.Found.{resized_to, Drafts, Shorter, Longer};

use base_shape::shape;
use base_slot::{fields, slot};
use call_reshape::{longer, shorter};
use check_survey::marks::Notes;
use meaning::Edition;
use plan_longer::fresh::Growth;
use plan_longer::towers::Tower;
use plan_tree::cuts::Cut;

// The numbers of a blob of that height and so many leaves that is to have so many.
fn tower_of(e: Edition, height: usize, leaves: usize, want: usize) -> Tower
    requires proper { Proper e }
    requires leaves_le_want { (leaves ≤ want) × (want ≤ 2 ^ 40) }
    ensures { Measures e height leaves want result }
{
    let fan = e.fan as u64;
    let blocks = shape::block_total(fan, leaves as u64);
    let taken = shape::block_total(fan, want as u64) - blocks;
    let top = shape::height_for(fan, want as u64);
    Tower {
        height: height,
        top: top as usize,
        blocks: blocks as usize,
        taken: taken as usize,
    }
}

// The blob gets shorter.
pub fn shorten(
    e: Edition,
    pool: &mut [u8],
    records: &mut [u8],
    notes: Notes,
    kept: &mut [u8],
    payload: &mut [u8],
    scratch: &mut [u8],
    n: usize,
    root: usize,
    short: usize,
    want: usize,
)
    requires proper { Proper e }
    requires shorter { Shorter e n pool.old records.old root notes.heights.now notes.firsts.now short want }
    requires drafts { Drafts e kept.old payload.old scratch.old }
    ensures pool_after { pool.new ≡ puts e.size (λ c. c.block) (resized_to e n pool.old records.old root short) pool.old }
    ensures records_after { records.new ≡ puts 12 (λ c. c.line) (resized_to e n pool.old records.old root short) records.old }
{
    let top = shape::height_for(e.fan as u64, want as u64) as usize;
    let h = fields::height_of(slot::block_of(e, pool, root));
    let c = Cut {
        length: short,
        leaves: want,
        top: top,
    };
    shorter::cut_blob(
        e, c, pool, records, notes, kept, payload, scratch, n, root, h,
    );
}

// Those of the blob with that root.
fn tower_at(e: Edition, pool: &[u8], root: usize, leaves: usize, want: usize) -> Tower
    requires proper { Proper e }
    requires size_in_bounds { e.size * root + e.size ≤ length pool.now }
    requires leaves_le_want { (leaves ≤ want) × (want ≤ 2 ^ 40) }
    ensures { Measures e (height_of (block e pool.now root)) leaves want result }
{
    let h = fields::height_of(slot::block_of(e, pool, root));
    tower_of(e, h, leaves, want)
}

// The blob gets longer, or stays as long as it is.
pub fn lengthen(
    e: Edition,
    pool: &mut [u8],
    records: &mut [u8],
    free: &[u32],
    notes: Notes,
    kept: &mut [u8],
    payload: &mut [u8],
    scratch: &mut [u8],
    n: usize,
    root: usize,
    leaves: usize,
    long: usize,
    want: usize,
)
    requires proper { Proper e }
    requires longer { Longer e n pool.old records.old root leaves notes.heights.now notes.firsts.now free.now long want }
    requires drafts { Drafts e kept.old payload.old scratch.old }
    ensures pool_after { pool.new ≡ puts e.size (λ c. c.block) (resized_to e n pool.old records.old root long) pool.old }
    ensures records_after { records.new ≡ puts 12 (λ c. c.line) (resized_to e n pool.old records.old root long) records.old }
{
    let t = tower_at(e, pool, root, leaves, want);
    let g = Growth {
        length: long,
        leaves: leaves,
        more: want - leaves,
    };
    longer::grow(
        e, g, t, pool, records, free, notes, kept, payload, scratch, n, root,
    );
}
