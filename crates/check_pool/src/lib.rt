// The pool check: the walks from all roots with one shared set of visited slots, then the closing pass.
#![tactic(auto)]

pub mod closing;
pub mod roots;

ghost use Rattle.std.specs.Prelude.{◌≡◌, ◌≤◌, replicate};
ghost use Rattle.meaning.specs.Edition.{Proper};
ghost use Rattle.check_blob.specs.visit.{Sized};
ghost use Rattle.check_blob.specs.notes.{met};
ghost use Rattle.check_pool.specs.roots.{pool_noted};

use meaning::{Edition, Refusal};

// The pool check. Of the named root's blob, if one is named, it answers the bytes and the leaves, whose slots it notes in the row.
pub fn check(
    e: Edition,
    pool: &[u8],
    records: &[u8],
    seen: &mut [u8],
    row: &mut [u32],
    n: usize,
    named: Option<usize>,
) -> Result<(u64, usize), Refusal>
    requires proper { Proper e }
    requires sized { Sized e n pool.now records.now seen.old }
    requires n_le_most { (n ≤ e.most) × (seen.old ≡ replicate n 0) }
    ensures { met result seen.new row.new ≡ pool_noted e n pool.now records.now named row.old }
{
    let walked = roots::walk_roots(e, pool, records, seen, row, n, named);
    // By let .. else, document 01's form where the answer's type stays the same.
    let Ok((b, k)) = walked else {
        return walked;
    };
    // Kept as a match: the edit closing_left_out drops what the closing pass found.
    match closing::close(e, pool, records, seen, n) {
        Err(r) => Err(r),
        Ok(()) => Ok((b, k)),
    }
}
