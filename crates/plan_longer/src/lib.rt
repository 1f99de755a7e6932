// A blob that gets longer: what each slot becomes, by where its block stands or by how many usable slots lie below it. Nothing is stored here.
#![tactic(auto)]

pub mod added;
pub mod enlarged;
pub mod extended;
pub mod fresh;
pub mod risen;
pub mod taken;
pub mod towers;

ghost use Rattle.std.specs.Prelude.{◌≡◌, length};
ghost use Rattle.meaning.specs.Edition.{Proper};
ghost use Rattle.meaning.specs.Bytes.{recorded};
ghost use Rattle.plan_longer.specs.fresh.{Grows};
ghost use Rattle.plan_slot.specs.turn.{turned, Rises};
ghost use Rattle.plan_longer.specs.towers.{Towers, RootBlock};
ghost use Rattle.plan_longer.specs.Plans.{Here, grow_plan};

use crate::fresh::Growth;
use crate::towers::Tower;
use check_survey::marks::Notes;
use meaning::Edition;
use plan_slot::turn::Turn;

// What slot i becomes, where so many usable slots lie below it. Nothing is written but the payload of its new block.
pub fn plan_slot(
    e: Edition,
    g: Growth,
    t: Tower,
    pool: &[u8],
    records: &[u8],
    free: &[u32],
    notes: Notes,
    kept: &[u8],
    payload: &mut [u8],
    root: usize,
    i: usize,
    below: usize,
) -> Turn
    requires proper { Proper e }
    requires grows { Grows e g }
    requires towers { Towers e g t }
    requires root_block { RootBlock e g t kept.now }
    requires here { Here e g pool.now records.now notes.heights.now notes.firsts.now root i }
    requires payload_len { length payload.old ≡ e.leaf }
    ensures payload_after { turned e records.now i result payload.new ≡ grow_plan e g t pool.now records.now free.now notes.entry.heights.now notes.entry.firsts.now kept.now root below i }
    ensures rises { Rises result (recorded records.now i) }
{
    if i == root {
        return enlarged::plan_root(e, g, t, free, kept, payload);
    }
    match notes.height_at(i) {
        None => taken::plan_free(e, g, t, records, free, kept, payload, i, below),
        Some(_) => enlarged::plan_old(e, g, pool, free, notes, payload, i),
    }
}
