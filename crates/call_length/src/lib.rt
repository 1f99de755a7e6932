// The length of a blob, for any edition.
#![tactic(auto)]

ghost use Rattle.std.specs.Prelude.{◌≡◌, ◌≤◌, length, replicate};
ghost use Rattle.meaning.specs.Edition.{Proper};
ghost use Rattle.meaning.specs.Calls.{slots_in, length_in, length_call};
ghost use Rattle.meaning.specs.Answers.{answer_of};
ghost use Rattle.check_gate.specs.Gate.{Whole};
ghost use Rattle.check_gate.specs.Places.{Clear};

use meaning::{Edition, Refusal};

// Refusal 3 and the blob check, then the length.
fn length_in(
    e: Edition,
    pool: &[u8],
    records: &[u8],
    seen: &mut [u8],
    row: &mut [u32],
    n: usize,
    root: u64,
) -> Result<u64, Refusal>
    requires proper { Proper e }
    requires whole { Whole e n pool.now records.now }
    requires seen_value { seen.old ≡ replicate n 0 }
    ensures { result ≡ answer_of (length_in e n pool.now records.now root) }
{
    let (bytes, _) = check_blob::open::open_blob(e, pool, records, seen, row, n, root)?;
    Ok(bytes)
}

// The whole call: refusals 1 and 2, then the length. Flags and row have a place for each slot of the pool.
pub fn length_call(
    e: Edition,
    pool: &[u8],
    records: &[u8],
    seen: &mut [u8],
    row: &mut [u32],
    root: u64,
) -> Result<u64, Refusal>
    requires proper { Proper e }
    requires clear { Clear e pool.now seen.old × (slots_in e pool.now ≤ length row.old) }
    ensures { result ≡ answer_of (length_call e pool.now records.now root) }
{
    let n = check_gate::open(e, pool, records)?;
    length_in(e, pool, records, &mut seen[0..n], &mut row[0..n], n, root)
}
