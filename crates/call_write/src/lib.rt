// Write, for any edition: bytes put inside a blob's present length.
#![tactic(auto)]

pub mod put;

ghost use Rattle.std.specs.Prelude.{◌≡◌, ◌+◌};
ghost use Rattle.meaning.specs.Edition.{Proper};
ghost use Rattle.meaning.specs.Calls.{write_call};
ghost use Rattle.meaning.specs.Answers.{answer_of, Ends};
ghost use Rattle.check_survey.specs.Reached.{Rows};

use check_survey::marks::Notes;
use meaning::{Edition, Refusal};

// Write: refusals 1, 2 and 3 and the pool check, then what is noted of the blob decides.
pub fn write_call(
    e: Edition,
    pool: &mut [u8],
    records: &mut [u8],
    seen: &mut [u8],
    row: &mut [u32],
    heights: &mut [u8],
    firsts: &mut [u32],
    root: u64,
    offset: u64,
    src: &[u8],
) -> Result<(), Refusal>
    requires proper { Proper e }
    requires size_value { e.size ≡ 16 + e.leaf }
    requires rows { Rows e pool.old seen.old row.old heights.old firsts.old }
    ensures { Ends e answer_of (write_call e pool.old records.old root offset src.now) pool.old records.old result pool.new records.new }
{
    // Kept as a match: the edit refused_is_done changes what it answers of a refusal.
    match check_survey::reach(e, pool, records, seen, row, heights, firsts, root) {
        Err(r) => Err(r),
        Ok(reached) => {
            let n = reached.slots;
            let notes = Notes {
                heights: &heights[0..n],
                firsts: &firsts[0..n],
            };
            put::write_noted(e, pool, records, notes, src, n, reached.bytes, offset)
        }
    }
}
