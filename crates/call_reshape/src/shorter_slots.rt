// A blob that gets shorter: the loop over the slots that makes each what is planned of it.
ghost use Rattle.std.specs.Prelude.{◌≡◌, ℕ, ◌^◌, ◌<◌, length, get_or};
ghost use Rattle.meaning.specs.Edition.{Proper};
ghost use Rattle.meaning.specs.Bytes.{recorded, last_version};
ghost use Rattle.meaning.specs.Change.{puts};
ghost use Rattle.check_gate.specs.Gate.{Whole};
ghost use Rattle.plan_slot.specs.change.Places.{Places};
ghost use Rattle.plan_slot.specs.change.Turns.{over};
ghost use Rattle.plan_tree.specs.cuts.{Cuts};
ghost use Rattle.plan_shorter.specs.Plans.{KeptBlock, Here, cut_plan};

use check_survey::marks::Notes;
use meaning::Edition;
use plan_slot::carry;
use plan_tree::cuts::Cut;

// Slot i becomes what is planned: its block, then its record.
fn cut_slot(
    e: Edition,
    c: Cut,
    pool: &mut [u8],
    records: &mut [u8],
    notes: Notes,
    kept: &[u8],
    payload: &mut [u8],
    scratch: &mut [u8],
    root: usize,
    i: usize,
)
    requires proper { Proper e }
    requires cuts { Cuts e c }
    requires kept_block { KeptBlock e c kept.now }
    requires here { Here e pool.old notes.heights.now notes.firsts.now i }
    requires places { Places e pool.old records.old scratch.old i }
    requires i_bound { (i < 2 ^ 32) × (length payload.old ≡ e.leaf) }
    requires i_bound_2 { (get_or notes.heights.now i 0 ≡ 0 → ⊥) → recorded records.old i < last_version }
    ensures pool_after { pool.new ≡ puts e.size (λ c. c.block) (cut_plan e c notes.entry.heights.now notes.entry.firsts.now kept.now root pool.old records.old i) pool.old }
    ensures records_after { records.new ≡ puts 12 (λ c. c.line) (cut_plan e c notes.entry.heights.now notes.entry.firsts.now kept.now root pool.old records.old i) records.old }
{
    let turn = plan_shorter::plan_slot(e, c, pool, notes, kept, payload, root, i);
    carry::carry_out(e, pool, records, scratch, payload, i, turn);
}

// Every slot becomes what is planned, rising.
pub fn cut_all(
    e: Edition,
    c: Cut,
    pool: &mut [u8],
    records: &mut [u8],
    notes: Notes,
    kept: &[u8],
    payload: &mut [u8],
    scratch: &mut [u8],
    n: usize,
    root: usize,
)
    requires proper { Proper e }
    requires cuts { Cuts e c }
    requires kept_block { KeptBlock e c kept.now }
    requires whole { Whole e n pool.old records.old }
    requires by_index { (s : ℕ) → s < n → Here e pool.old notes.heights.now notes.firsts.now s }
    requires by_index_2 { (s : ℕ) → s < n → (get_or notes.heights.now s 0 ≡ 0 → ⊥) → recorded records.old s < last_version }
    requires payload_len { (length payload.old ≡ e.leaf) × (length scratch.old ≡ e.size) }
    ensures pool_after { pool.new ≡ puts e.size (λ c. c.block) (over (cut_plan e c notes.entry.heights.now notes.entry.firsts.now kept.now root pool.old records.old) 0 n) pool.old }
    ensures records_after { records.new ≡ puts 12 (λ c. c.line) (over (cut_plan e c notes.entry.heights.now notes.entry.firsts.now kept.now root pool.old records.old) 0 n) records.old }
{
    // Not one loop with grow_all, a delete's and a write's: each is one call a slot, lent other slices, and a trait of plans with its law is no plainer.
    for i in 0..n {
        cut_slot(e, c, pool, records, notes, kept, payload, scratch, root, i);
    }
}
