// Reading by position: from a leaf's number to its slot, and from there the bytes. It needs no record.
ghost use Rattle.std.specs.Prelude.{◌≡◌, ◌≤◌, ◌<◌, length, take};
ghost use Rattle.meaning.specs.Lists.{part};
ghost use Rattle.meaning.specs.Edition.{Proper};
ghost use Rattle.call_read.specs.copy.{spelt, Reading};

use base_bytes::runs;
use base_slot::slot;
use meaning::Edition;

// Copies one stretch behind the first pos bytes of out, and answers how many are there then. It is not one with the copy of `call_head`, which puts
// zeros where the pool has no such slot and so asks the pool each time; what both need is `stretch_from`.
fn copy_stretch(
    e: Edition,
    pool: &[u8],
    row: &[u32],
    n: usize,
    k: usize,
    offset: usize,
    pos: usize,
    out: &mut [u8],
) -> usize
    requires proper { Proper e }
    requires reading { Reading e n pool.now row.now k offset (length out.old) }
    requires pos_in_bounds { (pos < length out.old) × (take pos out.old ≡ part offset pos (spelt e pool.now (take k row.now))) }
    ensures lower_bound { (pos < result) × (result ≤ length out.old) }
    ensures out_after { take result out.new ≡ part offset result (spelt e pool.now (take k row.now)) }
{
    let place = offset + pos;
    let m = runs::stretch_from(e.leaf, place, out.len() - pos);
    let leaf = place / e.leaf;
    let b = slot::block_of(e, pool, check_blob::row::slot_at(row, leaf));
    let end = pos + m;
    runs::fill(&mut out[pos..end], b, 16 + place % e.leaf);
    end
}

// The whole of out becomes the bytes from the offset on of the blob whose leaves lie in the row's first k slots.
pub fn read_at(
    e: Edition,
    pool: &[u8],
    row: &[u32],
    n: usize,
    k: usize,
    offset: usize,
    out: &mut [u8],
)
    requires proper { Proper e }
    requires reading { Reading e n pool.now row.now k offset (length out.old) }
    ensures { out.new ≡ part offset (length out.old) (spelt e pool.now (take k row.now)) }
{
    // Not chunks of out: the first stretch may begin inside a leaf, and each turn goes on by as many bytes as it copied.
    let mut pos = 0;
    while pos < out.len() {
        pos = copy_stretch(e, pool, row, n, k, offset, pos, out);
    }
}
