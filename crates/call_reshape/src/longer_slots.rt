// A blob that gets longer: the loop over the slots that makes each what is planned of it.
ghost use Rattle.std.specs.Prelude.{◌≡◌, length};
ghost use Rattle.meaning.specs.Edition.{Proper};
ghost use Rattle.meaning.specs.Change.{puts};
ghost use Rattle.check_gate.specs.Gate.{Whole};
ghost use Rattle.plan_slot.specs.change.Turns.{over};
ghost use Rattle.plan_longer.specs.fresh.{Grows};
ghost use Rattle.plan_longer.specs.towers.{Towers, RootBlock};
ghost use Rattle.plan_longer.specs.Plans.{Here, AllHere, grow_plan, grow_plans};

use base_slot::usable;
use check_survey::marks::Notes;
use meaning::Edition;
use plan_longer::fresh::Growth;
use plan_longer::towers::Tower;
use plan_slot::carry;

// Slot i becomes what is planned, where so many usable slots lie below it: its block, then its record.
fn grow_slot(
    e: Edition,
    g: Growth,
    t: Tower,
    pool: &mut [u8],
    records: &mut [u8],
    free: &[u32],
    notes: Notes,
    kept: &[u8],
    payload: &mut [u8],
    scratch: &mut [u8],
    root: usize,
    i: usize,
    below: usize,
)
    requires proper { Proper e }
    requires grows { Grows e g }
    requires towers { Towers e g t }
    requires root_block { RootBlock e g t kept.now }
    requires here { Here e g pool.old records.old notes.heights.now notes.firsts.now root i }
    requires payload_len { (length payload.old ≡ e.leaf) × (length scratch.old ≡ e.size) }
    ensures pool_after { pool.new ≡ puts e.size (λ c. c.block) (grow_plan e g t pool.old records.old free.now notes.entry.heights.now notes.entry.firsts.now kept.now root below i) pool.old }
    ensures records_after { records.new ≡ puts 12 (λ c. c.line) (grow_plan e g t pool.old records.old free.now notes.entry.heights.now notes.entry.firsts.now kept.now root below i) records.old }
{
    let turn = plan_longer::plan_slot(
        e, g, t, pool, records, free, notes, kept, payload, root, i, below,
    );
    carry::carry_out(e, pool, records, scratch, payload, i, turn);
}

// Every slot becomes what is planned, rising. `kept` is the root's block as it was.
pub fn grow_all(
    e: Edition,
    g: Growth,
    t: Tower,
    pool: &mut [u8],
    records: &mut [u8],
    free: &[u32],
    notes: Notes,
    kept: &[u8],
    payload: &mut [u8],
    scratch: &mut [u8],
    n: usize,
    root: usize,
)
    requires proper { Proper e }
    requires grows { Grows e g }
    requires towers { Towers e g t }
    requires root_block { RootBlock e g t kept.now }
    requires whole { Whole e n pool.old records.old }
    requires all_here { AllHere e g n pool.old records.old notes.heights.now notes.firsts.now root }
    requires payload_len { (length payload.old ≡ e.leaf) × (length scratch.old ≡ e.size) }
    ensures pool_after { pool.new ≡ puts e.size (λ c. c.block) (over (grow_plans e g t pool.old records.old free.now notes.entry.heights.now notes.entry.firsts.now kept.now root) 0 n) pool.old }
    ensures records_after { records.new ≡ puts 12 (λ c. c.line) (over (grow_plans e g t pool.old records.old free.now notes.entry.heights.now notes.entry.firsts.now kept.now root) 0 n) records.old }
{
    // Not one loop with cut_all, a delete's and a write's: each is one call a slot, lent other slices, and a trait of plans with its law is no plainer.
    let mut below = 0;
    for i in 0..n {
        let more = usable::one_if(usable::is_usable(records, i));
        grow_slot(
            e, g, t, pool, records, free, notes, kept, payload, scratch, root, i, below,
        );
        below += more;
    }
}
