// Delete, for any edition: every block of the blob goes.
#![tactic(auto)]

pub mod free;

ghost use Rattle.std.specs.Prelude.{◌≡◌, length};
ghost use Rattle.meaning.specs.Edition.{Proper};
ghost use Rattle.meaning.specs.Calls.{delete_call};
ghost use Rattle.meaning.specs.Answers.{answer_of, Ends};
ghost use Rattle.check_survey.specs.Reached.{Rows};

use meaning::{Edition, Refusal};

// Delete: refusals 1, 2 and 3 and the pool check, then every block of the blob goes.
pub fn delete_call(
    e: Edition,
    pool: &mut [u8],
    records: &mut [u8],
    seen: &mut [u8],
    row: &mut [u32],
    heights: &mut [u8],
    firsts: &mut [u32],
    scratch: &mut [u8],
    root: u64,
) -> Result<(), Refusal>
    requires proper { Proper e }
    requires rows { Rows e pool.old seen.old row.old heights.old firsts.old }
    requires scratch_len { length scratch.old ≡ e.size }
    ensures { Ends e answer_of (delete_call e pool.old records.old root) pool.old records.old result pool.new records.new }
{
    // Kept as a match: the edit refused_is_done changes what it answers of a refusal.
    match check_survey::reach(e, pool, records, seen, row, heights, firsts, root) {
        Err(r) => Err(r),
        Ok(reached) => {
            let n = reached.slots;
            free::clear_all(e, pool, records, &heights[0..n], scratch, n);
            Ok(())
        }
    }
}
