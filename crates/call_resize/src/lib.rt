// Resize, for any edition: what every call that changes a blob does first, then refusals 12 and 11 and the blob as it becomes.
#![tactic(auto)]

pub mod either;
pub mod fit;
pub mod found;

ghost use Rattle.meaning.specs.Edition.{Proper};
ghost use Rattle.meaning.specs.Calls.{resize_call};
ghost use Rattle.meaning.specs.Answers.{answer_of, Ends};
ghost use Rattle.call_resize.specs.fit.Found.{Drafts};
ghost use Rattle.check_survey.specs.Reached.{Rows};

use check_survey::marks::Notes;
use meaning::{Edition, Refusal};

// Resize: refusals 1, 2 and 3 and the pool check, then what is behind them.
pub fn resize_call(
    e: Edition,
    pool: &mut [u8],
    records: &mut [u8],
    seen: &mut [u8],
    row: &mut [u32],
    heights: &mut [u8],
    firsts: &mut [u32],
    kept: &mut [u8],
    payload: &mut [u8],
    scratch: &mut [u8],
    root: u64,
    len: u64,
) -> Result<(), Refusal>
    requires proper { Proper e }
    requires rows { Rows e pool.old seen.old row.old heights.old firsts.old }
    requires drafts { Drafts e kept.old payload.old scratch.old }
    ensures { Ends e answer_of (resize_call e pool.old records.old root len) pool.old records.old result pool.new records.new }
{
    // Kept as a match: the edit refused_is_done changes what it answers of a refusal.
    match check_survey::reach(e, pool, records, seen, row, heights, firsts, root) {
        Err(r) => Err(r),
        Ok(reached) => {
            let n = reached.slots;
            let notes = Notes {
                heights: &heights[0..n],
                firsts: &firsts[0..n],
            };
            found::resize_found(
                e,
                pool,
                records,
                &mut row[0..n],
                notes,
                kept,
                payload,
                scratch,
                n,
                root as usize,
                reached.bytes as usize,
                reached.leaves,
                len,
            )
        }
    }
}
