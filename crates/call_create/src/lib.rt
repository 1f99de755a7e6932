// Create, for any edition: refusals 1 and 2 and the pool check, then what is behind them.
#![tactic(auto)]

pub mod claim;

ghost use Rattle.std.specs.Prelude.{◌≡◌, length, replicate};
ghost use Rattle.meaning.specs.Edition.{Proper};
ghost use Rattle.meaning.specs.Calls.{create_in, create_call};
ghost use Rattle.meaning.specs.Answers.{answer_of, Ends};
ghost use Rattle.check_gate.specs.Gate.{Whole};
ghost use Rattle.check_gate.specs.Places.{Clear};

use meaning::{Edition, Refusal};

// The pool check, then the new blob.
fn create_in(
    e: Edition,
    pool: &mut [u8],
    records: &mut [u8],
    seen: &mut [u8],
    row: &mut [u32],
    scratch: &mut [u8],
    n: usize,
) -> Result<u64, Refusal>
    requires proper { Proper e }
    requires whole { Whole e n pool.old records.old }
    requires seen_value { (seen.old ≡ replicate n 0) × (length scratch.old ≡ e.size) }
    ensures { Ends e answer_of (create_in e n pool.old records.old) pool.old records.old result pool.new records.new }
{
    // Kept as a match: the edit fault_is_slot_zero changes what it answers of a fault.
    match check_pool::check(e, pool, records, seen, row, n, None) {
        Err(r) => Err(r),
        Ok((_, _)) => claim::create_free(e, pool, records, scratch, n),
    }
}

// The whole call: refusals 1 and 2, then the pool check and the new blob. The flags have a place for each slot of the pool.
pub fn create_call(
    e: Edition,
    pool: &mut [u8],
    records: &mut [u8],
    seen: &mut [u8],
    row: &mut [u32],
    scratch: &mut [u8],
) -> Result<u64, Refusal>
    requires proper { Proper e }
    requires clear { Clear e pool.old seen.old × (length scratch.old ≡ e.size) }
    ensures { Ends e answer_of (create_call e pool.old records.old) pool.old records.old result pool.new records.new }
{
    let n = check_gate::open(e, pool, records)?;
    create_in(e, pool, records, &mut seen[0..n], row, scratch, n)
}
