// The audit, for any edition: the pool check, and the count of live slots.
#![tactic(auto)]

ghost use Rattle.std.specs.Prelude.{◌≡◌, ◌*◌, ◌≤◌, ◌<◌, length, replicate};
ghost use Rattle.meaning.specs.Edition.{Proper};
ghost use Rattle.meaning.specs.Calls.{audit_in, audit_call};
ghost use Rattle.meaning.specs.Answers.{answer_of};
ghost use Rattle.check_gate.specs.Gate.{Whole};
ghost use Rattle.check_gate.specs.Places.{Clear};
ghost use Rattle.call_audit.specs.Counting.{live_from};

use base_slot::{record, slot};
use meaning::{Edition, Refusal};

// How many of one slot are live: 1 or 0.
fn live_at(records: &[u8], n: usize, i: usize) -> u64
    requires { (length records.now ≡ 12 * n) × (i < n) }
    ensures { (result ≡ live_from records.now i 1) × (result ≤ 1) }
{
    let state = record::state_of(slot::record_of(records, i));
    if state == 0 { 0 } else { 1 }
}

// How many slots are live.
fn count_live(records: &[u8], n: usize) -> u64
    requires { length records.now ≡ 12 * n }
    ensures { result ≡ live_from records.now 0 n }
{
    let mut live: u64 = 0;
    for i in 0..n {
        live += live_at(records, n, i);
    }
    live
}

// The pool check, and the count.
fn audit_in(
    e: Edition,
    pool: &[u8],
    records: &[u8],
    seen: &mut [u8],
    row: &mut [u32],
    n: usize,
) -> Result<u64, Refusal>
    requires proper { Proper e }
    requires whole { Whole e n pool.now records.now }
    requires seen_value { seen.old ≡ replicate n 0 }
    ensures { result ≡ answer_of (audit_in e n pool.now records.now) }
{
    check_pool::check(e, pool, records, seen, row, n, None)?;
    Ok(count_live(records, n))
}

// The whole call: refusals 1 and 2, then the audit. The flags have a place for each slot of the pool; no leaf is noted in the row.
pub fn audit_call(
    e: Edition,
    pool: &[u8],
    records: &[u8],
    seen: &mut [u8],
    row: &mut [u32],
) -> Result<u64, Refusal>
    requires proper { Proper e }
    requires clear { Clear e pool.now seen.old }
    ensures { result ≡ answer_of (audit_call e pool.now records.now) }
{
    // Kept as a match: the edit audit_invents changes what it answers of a refusal.
    match check_gate::open(e, pool, records) {
        Err(r) => Err(r),
        Ok(n) => audit_in(e, pool, records, &mut seen[0..n], row, n),
    }
}
