// Write inside a blob whose blocks are noted: refusals 12 and 10, then every slot that changes is stored.
ghost use Rattle.std.specs.Prelude.{◌≡◌, ◌+◌};
ghost use Rattle.meaning.specs.Edition.{Proper};
ghost use Rattle.meaning.specs.Change.{puts};
ghost use Rattle.meaning.specs.Answers.{answer_of, Ends};
ghost use Rattle.check_gate.specs.Gate.{Whole};
ghost use Rattle.plan_slot.specs.change.Turns.{over};
ghost use Rattle.plan_write.specs.stretch.{write_plan};
ghost use Rattle.plan_write.specs.rewriting.{Unworn};
ghost use Rattle.call_write.specs.put.{Leaves, write_noted};

use check_survey::marks::Notes;
use check_survey::refusal;
use meaning::{Edition, Refusal};
use plan_write::patch;

// Every slot that changes is stored, rising.
fn write_all(
    e: Edition,
    pool: &mut [u8],
    records: &mut [u8],
    notes: Notes,
    src: &[u8],
    n: usize,
    offset: usize,
)
    requires proper { Proper e }
    requires size_value { e.size ≡ 16 + e.leaf }
    requires whole { Whole e n pool.old records.old }
    requires leaves { Leaves e n pool.old records.old notes.heights.now notes.firsts.now }
    ensures pool_after { pool.new ≡ puts e.size (λ c. c.block) (over (write_plan e pool.old records.old notes.entry.heights.now notes.entry.firsts.now src.now offset) 0 n) pool.old }
    ensures records_after { records.new ≡ puts 12 (λ c. c.line) (over (write_plan e pool.old records.old notes.entry.heights.now notes.entry.firsts.now src.now offset) 0 n) records.old }
{
    // Not one loop with a delete's and a resize's: each is one call a slot, lent other slices, and a trait of plans with its law is no plainer.
    for i in 0..n {
        patch::write_slot(e, pool, records, notes, src, offset, i);
    }
}

// Refusals 12 and 10, then the bytes are put, in a blob of so many bytes whose blocks are noted in the rows.
pub fn write_noted(
    e: Edition,
    pool: &mut [u8],
    records: &mut [u8],
    notes: Notes,
    src: &[u8],
    n: usize,
    bytes: u64,
    offset: u64,
) -> Result<(), Refusal>
    requires proper { Proper e }
    requires size_value { e.size ≡ 16 + e.leaf }
    requires whole { Whole e n pool.old records.old }
    requires unworn { Unworn e n pool.old records.old notes.heights.now notes.firsts.now }
    ensures { Ends e answer_of (write_noted e n pool.old records.old notes.entry.heights.now notes.entry.firsts.now bytes offset src.now) pool.old records.old result pool.new records.new }
{
    refusal::write::barred(records, notes.heights, n, bytes, offset, src.len())?;
    write_all(e, pool, records, notes, src, n, offset as usize);
    Ok(())
}
