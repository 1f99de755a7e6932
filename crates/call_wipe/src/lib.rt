// Wipe, for any edition: pool all zeros; each record free, version 0.
#![tactic(auto)]

ghost use Rattle.std.specs.Prelude.{◌≡◌, ◌*◌, length};
ghost use Rattle.meaning.specs.Edition.{Proper};
ghost use Rattle.meaning.specs.Calls.{free_records};
ghost use Rattle.meaning.specs.Answers.{Wipes};

use base_bytes::runs;
use base_slot::{record, slot};
use meaning::{Edition, Reason, Refusal};

// Each record becomes that of a slot never taken.
fn free_all(records: &mut [u8], n: usize)
    requires { length records.old ≡ 12 * n }
    ensures { records.new ≡ free_records n }
{
    let line = record::build(0, 0, 0);
    for i in 0..n {
        slot::store_record(records, i, &line);
    }
}

// Refusal 1 only; then everything is wiped.
pub fn wipe_call(e: Edition, pool: &mut [u8], records: &mut [u8]) -> Result<(), Refusal>
    requires { Proper e }
    ensures { Wipes e pool.old records.old result pool.new records.new }
{
    if !check_gate::is_sized(e, pool, records) {
        return Err(meaning::refuse_nowhere(Reason::WrongLengths));
    }
    let n = pool.len() / e.size;
    runs::clear(pool);
    free_all(records, n);
    Ok(())
}
