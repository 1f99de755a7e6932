// A blob that gets shorter: what each slot becomes, by where its block stands.
#![tactic(auto)]

pub mod kept;
pub mod trimmed;

ghost use Rattle.std.specs.Prelude.{◌≡◌, List, ℕ, length};
ghost use Rattle.meaning.specs.Edition.{Proper};
ghost use Rattle.meaning.specs.Bytes.{block};
ghost use Rattle.plan_slot.specs.turn.{turned};
ghost use Rattle.plan_tree.specs.cuts.{Cuts};
ghost use Rattle.plan_shorter.specs.Plans.{KeptBlock, Here, Rising, cut_plan};

use base_slot::slot;
use check_survey::marks::Notes;
use meaning::Edition;
use plan_slot::turn::Turn;
use plan_tree::cuts;
use plan_tree::cuts::Cut;

// What slot i becomes. `kept` is the block that stood on the left edge at the new root's height: the root takes its row.
pub fn plan_slot(
    e: Edition,
    c: Cut,
    pool: &[u8],
    notes: Notes,
    kept: &[u8],
    payload: &mut [u8],
    root: usize,
    i: usize,
) -> Turn
    requires proper { Proper e }
    requires cuts { Cuts e c }
    requires kept_block { KeptBlock e c kept.now }
    requires here { Here e pool.now notes.heights.now notes.firsts.now i }
    requires payload_len { length payload.old ≡ e.leaf }
    ensures by_index { (R : List ℕ) → turned e R i result payload.new ≡ cut_plan e c notes.entry.heights.now notes.entry.firsts.now kept.now root pool.now R i }
    ensures rising { Rising notes.entry.heights.now i result }
{
    let Some(h) = notes.height_at(i) else {
        return Turn::Stays;
    };
    let block = slot::block_of(e, pool, i);
    if i == root {
        return kept::plan_kept(e, c, block, kept, payload, c.top, 0);
    }
    let first = notes.first_at(i);
    if cuts::is_gone(c, h, first) {
        return Turn::Goes;
    }
    kept::plan_kept(e, c, block, block, payload, h, first)
}
