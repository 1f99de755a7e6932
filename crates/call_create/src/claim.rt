// A new blob in a store that is sound: refusal 11, or the lowest usable free slot becomes an empty leaf and a root.
ghost use Rattle.std.specs.Prelude.{◌≡◌, [], length};
ghost use Rattle.meaning.specs.Edition.{Proper};
ghost use Rattle.meaning.specs.Calls.{create_on};
ghost use Rattle.meaning.specs.Answers.{answer_of, Ends};
ghost use Rattle.check_gate.specs.Gate.{Whole};

use base_slot::{record, slot, usable};
use meaning::{Edition, Reason, Refusal};
use plan_slot::change;
use plan_slot::payload::Drawn;

// Refusal 11, or the new blob. All is known before the first byte is written.
pub fn create_free(
    e: Edition,
    pool: &mut [u8],
    records: &mut [u8],
    scratch: &mut [u8],
    n: usize,
) -> Result<u64, Refusal>
    requires proper { Proper e }
    requires whole { Whole e n pool.old records.old }
    requires scratch_len { length scratch.old ≡ e.size }
    ensures { Ends e answer_of (create_on e n pool.old records.old []) pool.old records.old result pool.new records.new }
{
    let Some(slot) = usable::lowest(records, n) else {
        return Err(meaning::refuse_nowhere(Reason::NoRoom));
    };
    let version = record::version_of(slot::record_of(records, slot));
    let next = version + 1;
    let empty = Drawn {
        height: 0,
        count: 0,
    };
    let none = [0u8; 0];
    change::put_cell(e, pool, records, scratch, slot, empty, &none, 2, next);
    Ok(slot as u64)
}
