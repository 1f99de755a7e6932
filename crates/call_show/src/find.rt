// Where a leaf's data bytes lie in the pool: the whole call, for any edition.
ghost use Rattle.std.specs.Prelude.{◌≡◌, ◌≤◌, length, replicate};
ghost use Rattle.meaning.specs.Edition.{Proper};
ghost use Rattle.meaning.specs.Calls.{slots_in, show_in, show_call};
ghost use Rattle.meaning.specs.Answers.{leaf_answer};
ghost use Rattle.check_gate.specs.Gate.{Whole};
ghost use Rattle.check_gate.specs.Places.{Clear};
ghost use Rattle.call_show.specs.place.{Lies};

use crate::place;
use meaning::{Edition, Refusal};

// Refusal 3 and the blob check, then the leaf's place.
fn find_leaf_in(
    e: Edition,
    pool: &[u8],
    records: &[u8],
    seen: &mut [u8],
    row: &mut [u32],
    n: usize,
    root: u64,
    i: u64,
) -> Result<(usize, usize), Refusal>
    requires proper { Proper e }
    requires whole { Whole e n pool.now records.now }
    requires seen_value { (seen.old ≡ replicate n 0) × (length row.old ≡ n) }
    ensures value { result ≡ leaf_answer e (show_in e n pool.now records.now root i) }
    ensures lies { Lies result (length pool.now) }
{
    let (_, k) = check_blob::open::open_blob(e, pool, records, seen, row, n, root)?;
    place::leaf_found(e, pool, row, n, k, i)
}

// The whole call: refusals 1 and 2, then the leaf's place. Flags and row have a place for each slot of the pool.
pub fn find_leaf_call(
    e: Edition,
    pool: &[u8],
    records: &[u8],
    seen: &mut [u8],
    row: &mut [u32],
    root: u64,
    i: u64,
) -> Result<(usize, usize), Refusal>
    requires proper { Proper e }
    requires clear { Clear e pool.now seen.old × (slots_in e pool.now ≤ length row.old) }
    ensures value { result ≡ leaf_answer e (show_call e pool.now records.now root i) }
    ensures lies { Lies result (length pool.now) }
{
    let n = check_gate::open(e, pool, records)?;
    find_leaf_in(
        e,
        pool,
        records,
        &mut seen[0..n],
        &mut row[0..n],
        n,
        root,
        i,
    )
}
