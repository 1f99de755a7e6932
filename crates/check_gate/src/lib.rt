// The refusals that come first: 1, 2 and 3.
#![tactic(auto)]

ghost use Rattle.std.specs.Prelude.{◌≡◌, ◌*◌, ◌<◌, eqb, ltb, length};
ghost use Rattle.meaning.specs.Lists.{both};
ghost use Rattle.meaning.specs.Edition.{Proper};
ghost use Rattle.meaning.specs.Bytes.{state};
ghost use Rattle.meaning.specs.Calls.{sized};
ghost use Rattle.check_gate.specs.Gate.{records_gate, gate};

use base_slot::{record, slot};
use meaning::{Edition, Reason, Refusal};

// Whether pool and records have the lengths of the same number of slots.
#[tactic(auto, unfolding(meaning::specs::Calls::sized, meaning::specs::Calls::slots_in, meaning::specs::Lists::both))]
pub fn is_sized(e: Edition, pool: &[u8], records: &[u8]) -> bool
    requires { Proper e }
    ensures { result ≡ sized e pool.now records.now }
{
    let n = pool.len() / e.size;
    pool.len() % e.size == 0 && 1 <= n && n <= e.most && records.len() == slot::RECORD * n
}

// Refusal 2: the lowest record that breaks its layout; or the number of slots.
fn check_records(records: &[u8], n: usize) -> Result<usize, Refusal>
    requires { length records.now ≡ 12 * n }
    ensures { result ≡ records_gate records.now 0 n n }
{
    for i in 0..n {
        if !record::is_sound(slot::record_of(records, i)) {
            return Err(meaning::refuse_at(Reason::BadRecord, i));
        }
    }
    Ok(n)
}

// Refusals 1 and 2, which every call but wipe makes first.
pub fn open(e: Edition, pool: &[u8], records: &[u8]) -> Result<usize, Refusal>
    requires { Proper e }
    ensures { result ≡ gate e pool.now records.now }
{
    if !is_sized(e, pool, records) {
        return Err(meaning::refuse_nowhere(Reason::WrongLengths));
    }
    check_records(records, pool.len() / e.size)
}

// Whether refusal 3 does not hold: the named root is below n, and its record is a root.
#[tactic(auto, unfolding(meaning::specs::Lists::both))]
pub fn is_root(records: &[u8], n: usize, root: u64) -> bool
    requires { length records.now ≡ 12 * n }
    ensures { result ≡ both (ltb root n) (eqb (state records.now root) 2) }
{
    root < n as u64 && record::state_of(slot::record_of(records, root as usize)) == 2
}
