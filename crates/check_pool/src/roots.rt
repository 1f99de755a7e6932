// The walks from all roots, with one shared set of visited slots. Of the named root's blob the leaves are noted.
ghost use Rattle.std.specs.Prelude.{◌≡◌, ◌≤◌, ◌<◌};
ghost use Rattle.meaning.specs.Lists.{range};
ghost use Rattle.meaning.specs.Edition.{Proper};
ghost use Rattle.check_blob.specs.visit.{Sized};
ghost use Rattle.check_blob.specs.notes.{met};
ghost use Rattle.check_pool.specs.roots.{kept, root_step, roots_noted};

use base_slot::{record, slot};
use check_blob::walk;
use meaning::{Edition, Refusal};

// The walk from slot i, if it is a root. Of the named root's blob, if one is named, the leaves are noted; bytes and leaves are those noted so far.
fn walk_slot(
    e: Edition,
    pool: &[u8],
    records: &[u8],
    seen: &mut [u8],
    row: &mut [u32],
    n: usize,
    named: Option<usize>,
    i: usize,
    bytes: u64,
    leaves: usize,
) -> Result<(u64, usize), Refusal>
    requires proper { Proper e }
    requires sized { Sized e n pool.now records.now seen.old }
    requires i_lt_n { (i < n) × (n ≤ e.most) }
    ensures { met result seen.new row.new ≡ root_step e n pool.now records.now named i (kept bytes leaves row.old) seen.old }
{
    let state = record::state_of(slot::record_of(records, i));
    if state != 2 {
        return Ok((bytes, leaves));
    }
    if named == Some(i) {
        return walk::from_root(e, pool, records, seen, row, n, i);
    }
    let other = walk::from_root(e, pool, records, seen, &mut row[0..0], n, i);
    // By let .. else, document 01's form where the answer's type stays the same.
    let Ok((_, _)) = other else {
        return other;
    };
    Ok((bytes, leaves))
}

// The walks from each root record, in rising slot order.
pub fn walk_roots(
    e: Edition,
    pool: &[u8],
    records: &[u8],
    seen: &mut [u8],
    row: &mut [u32],
    n: usize,
    named: Option<usize>,
) -> Result<(u64, usize), Refusal>
    requires proper { Proper e }
    requires sized { Sized e n pool.now records.now seen.old }
    requires n_le_most { n ≤ e.most }
    ensures { met result seen.new row.new ≡ roots_noted e n pool.now records.now named (range 0 n) (kept 0 0 row.old) seen.old }
{
    let mut bytes: u64 = 0;
    let mut leaves: usize = 0;
    for i in 0..n {
        let here = walk_slot(e, pool, records, seen, row, n, named, i, bytes, leaves);
        // By let .. else, document 01's form where the answer's type stays the same.
        let Ok((b, k)) = here else {
            return here;
        };
        bytes = b;
        leaves = k;
    }
    Ok((bytes, leaves))
}
