// A blob gets longer: the root's block is kept, then every slot becomes what is planned of it, rising.
ghost use Rattle.std.specs.Prelude.{◌≡◌, ◌<◌, length};
ghost use Rattle.meaning.specs.Edition.{Proper};
ghost use Rattle.meaning.specs.Bytes.{block};
ghost use Rattle.meaning.specs.Change.{puts};
ghost use Rattle.check_gate.specs.Gate.{Whole};
ghost use Rattle.plan_slot.specs.change.Turns.{over};
ghost use Rattle.plan_longer.specs.fresh.{Grows};
ghost use Rattle.plan_longer.specs.towers.{Towers, RootBlock};
ghost use Rattle.plan_longer.specs.Plans.{AllHere, grow_plans};

use crate::longer_slots;
use check_survey::marks::Notes;
use meaning::Edition;
use plan_longer::fresh::Growth;
use plan_longer::towers::Tower;
use plan_slot::keep;

// The blob with that root gets longer. The root's block is kept first, since its slot may be stored before the one that takes its row.
pub fn grow(
    e: Edition,
    g: Growth,
    t: Tower,
    pool: &mut [u8],
    records: &mut [u8],
    free: &[u32],
    notes: Notes,
    kept: &mut [u8],
    payload: &mut [u8],
    scratch: &mut [u8],
    n: usize,
    root: usize,
)
    requires proper { Proper e }
    requires grows { Grows e g }
    requires towers { Towers e g t }
    requires root_block { RootBlock e g t (block e pool.old root) }
    requires whole { Whole e n pool.old records.old }
    requires all_here { AllHere e g n pool.old records.old notes.heights.now notes.firsts.now root }
    requires kept_len { (length kept.old ≡ e.size) × (length payload.old ≡ e.leaf) × (length scratch.old ≡ e.size) × (root < n) }
    ensures pool_after { pool.new ≡ puts e.size (λ c. c.block) (over (grow_plans e g t pool.old records.old free.now notes.entry.heights.now notes.entry.firsts.now (block e pool.old root) root) 0 n) pool.old }
    ensures records_after { records.new ≡ puts 12 (λ c. c.line) (over (grow_plans e g t pool.old records.old free.now notes.entry.heights.now notes.entry.firsts.now (block e pool.old root) root) 0 n) records.old }
{
    keep::keep_root(e, pool, kept, root);
    longer_slots::grow_all(
        e, g, t, pool, records, free, notes, kept, payload, scratch, n, root,
    );
}
