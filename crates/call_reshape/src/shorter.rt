// A blob gets shorter: the block whose row the root takes is kept, then every slot becomes what is planned of it, rising.
ghost use Rattle.std.specs.Prelude.{◌≡◌, length};
ghost use Rattle.meaning.specs.Edition.{Proper};
ghost use Rattle.meaning.specs.Bytes.{block, height_of};
ghost use Rattle.meaning.specs.Change.{puts};
ghost use Rattle.meaning.specs.Tree.{cells_of};
ghost use Rattle.meaning.specs.Resize.{resized};
ghost use Rattle.meaning.specs.Calls.{usable, become};
ghost use Rattle.check_survey.specs.sites.Spelt.{blob_at};
ghost use Rattle.call_reshape.specs.shorter.{CutStart};

use crate::shorter_slots;
use check_survey::marks::Notes;
use meaning::Edition;
use plan_slot::keep;
use plan_tree::cuts::Cut;

// The blob of height h with that root gets shorter: the block whose row the root takes is kept, since its slot may be freed before the root is stored.
pub fn cut_blob(
    e: Edition,
    c: Cut,
    pool: &mut [u8],
    records: &mut [u8],
    notes: Notes,
    kept: &mut [u8],
    payload: &mut [u8],
    scratch: &mut [u8],
    n: usize,
    root: usize,
    h: usize,
)
    requires proper { Proper e }
    requires cut_start { CutStart e c n pool.old records.old root notes.heights.now notes.firsts.now }
    requires h_value { h ≡ height_of (block e pool.old root) }
    requires kept_len { (length kept.old ≡ e.size) × (length payload.old ≡ e.leaf) × (length scratch.old ≡ e.size) }
    ensures pool_after { pool.new ≡ puts e.size (λ c. c.block) (become e n pool.old records.old 1 (cells_of (blob_at e pool.old root)) (cells_of (resized e c.length (usable e n pool.old records.old) (blob_at e pool.old root)))) pool.old }
    ensures records_after { records.new ≡ puts 12 (λ c. c.line) (become e n pool.old records.old 1 (cells_of (blob_at e pool.old root)) (cells_of (resized e c.length (usable e n pool.old records.old) (blob_at e pool.old root)))) records.old }
{
    keep::keep_left(e, pool, kept, root, h - c.top);
    shorter_slots::cut_all(e, c, pool, records, notes, kept, payload, scratch, n, root);
}
