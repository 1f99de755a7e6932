// How many slots change, told before any byte is stored: for a blob that gets longer or shorter, for a write and for a delete. Each number is the length
// of the same list of changes that the loop of its call stores, and nothing is written here.
#![tactic(auto)]

ghost use Rattle.std.specs.Prelude.{◌≡◌, List, ℕ, ◌≤◌, ◌<◌, length};
ghost use Rattle.meaning.specs.Edition.{Proper};
ghost use Rattle.check_gate.specs.Gate.{Whole};
ghost use Rattle.plan_slot.specs.change.Turns.{over};
ghost use Rattle.plan_longer.specs.fresh.{Grows};
ghost use Rattle.plan_longer.specs.towers.{Towers, RootBlock};
ghost use Rattle.plan_longer.specs.Plans.{AllHere, grow_plans};
ghost use Rattle.plan_tree.specs.cuts.{Cuts};
ghost use Rattle.plan_shorter.specs.Plans.{KeptBlock, Here, cut_plan};
ghost use Rattle.plan_write.specs.stretch.{Place, Counted, write_plan};
ghost use Rattle.call_delete.specs.free.{clear_plan};
ghost use Rattle.call_count.specs.Plannable.{Plannable};
ghost use Rattle.call_count.specs.counts.{Planned, Counts};

use base_slot::usable;
use check_survey::marks::Notes;
use meaning::Edition;
use plan_longer::fresh::Growth;
use plan_longer::towers::Tower;
use plan_slot::turn;
use plan_tree::cuts::Cut;
use plan_write::stretch;

// How many changes n slots have, where `plan` says how many each has: one, or none.
fn count_over<F: Fn(usize) -> usize>(n: usize, plan: F) -> usize
    requires { Planned n (F.pre plan) (F.post plan) }
    ensures { Counts n n (F.post plan) result }
{
    let mut count = 0;
    for i in 0..n {
        count += plan(i);
    }
    count
}

// How many slots change when the blob gets longer.
pub fn count_lengthening(
    e: Edition,
    g: Growth,
    t: Tower,
    pool: &[u8],
    records: &[u8],
    free: &[u32],
    notes: Notes,
    kept: &[u8],
    payload: &mut [u8],
    n: usize,
    root: usize,
) -> usize
    requires proper { Proper e }
    requires grows { Grows e g }
    requires towers { Towers e g t }
    requires root_block { RootBlock e g t kept.now }
    requires whole { Whole e n pool.now records.now }
    requires all_here { AllHere e g n pool.now records.now notes.heights.now notes.firsts.now root }
    requires payload_len { length payload.old ≡ e.leaf }
    ensures value { result ≡ length (over (grow_plans e g t pool.now records.now free.now notes.entry.heights.now notes.entry.firsts.now kept.now root) 0 n) }
    ensures upper_bound { result ≤ n }
{
    // Not by count_over: a plan here draws in the lent payload and goes by what lies below, and the contract of a closure that writes is no plainer.
    let mut below = 0;
    let mut count = 0;
    for i in 0..n {
        let turn = plan_longer::plan_slot(
            e, g, t, pool, records, free, notes, kept, payload, root, i, below,
        );
        count += turn::changes(turn);
        below += usable::one_if(usable::is_usable(records, i));
    }
    count
}

// How many changes slot i has when the blob gets shorter: one, or none.
fn shortening_at(
    e: Edition,
    c: Cut,
    pool: &[u8],
    notes: Notes,
    kept: &[u8],
    payload: &mut [u8],
    root: usize,
    i: usize,
) -> usize
    requires proper { Proper e }
    requires cuts { Cuts e c }
    requires kept_block { KeptBlock e c kept.now }
    requires here { Here e pool.now notes.heights.now notes.firsts.now i }
    requires payload_len { length payload.old ≡ e.leaf }
    ensures by_index { (R : List ℕ) → result ≡ length (cut_plan e c notes.entry.heights.now notes.entry.firsts.now kept.now root pool.now R i) }
    ensures upper_bound { result ≤ 1 }
{
    turn::changes(plan_shorter::plan_slot(e, c, pool, notes, kept, payload, root, i))
}

// How many slots change when the blob gets shorter.
pub fn count_shortening(
    e: Edition,
    c: Cut,
    pool: &[u8],
    notes: Notes,
    kept: &[u8],
    payload: &mut [u8],
    n: usize,
    root: usize,
) -> usize
    requires proper { Proper e }
    requires cuts { Cuts e c }
    requires kept_block { KeptBlock e c kept.now }
    requires by_index { (s : ℕ) → s < n → Here e pool.now notes.heights.now notes.firsts.now s }
    requires payload_len { length payload.old ≡ e.leaf }
    ensures by_index_2 { (R : List ℕ) → result ≡ length (over (cut_plan e c notes.entry.heights.now notes.entry.firsts.now kept.now root pool.now R) 0 n) }
    ensures upper_bound { result ≤ n }
{
    // Not by count_over: a plan here draws in the lent payload, and the contract of a closure that writes is no plainer.
    let mut count = 0;
    for i in 0..n {
        count += shortening_at(e, c, pool, notes, kept, payload, root, i);
    }
    count
}

// How many changes slot i has in a write: one, or none.
fn writing_at(e: Edition, pool: &[u8], notes: Notes, src: &[u8], offset: usize, i: usize) -> usize
    requires proper { Proper e }
    requires place { Place e pool.now notes.heights.now notes.firsts.now i }
    requires counted { Counted e pool.now notes.heights.now i }
    ensures by_index { (R : List ℕ) → result ≡ length (write_plan e pool.now R notes.entry.heights.now notes.entry.firsts.now src.now offset i) }
    ensures upper_bound { result ≤ 1 }
{
    match stretch::plan_slot(e, pool, notes, src, offset, i) {
        None => 0,
        Some(_) => 1,
    }
}

// How many slots a write changes.
pub fn count_writing(
    e: Edition,
    pool: &[u8],
    notes: Notes,
    src: &[u8],
    n: usize,
    offset: usize,
) -> usize
    requires proper { Proper e }
    requires plannable { Plannable e n pool.now notes.heights.now notes.firsts.now }
    ensures by_index { (R : List ℕ) → result ≡ length (over (write_plan e pool.now R notes.entry.heights.now notes.entry.firsts.now src.now offset) 0 n) }
    ensures upper_bound { result ≤ n }
{
    count_over(n, |i| writing_at(e, pool, notes, src, offset, i))
}

// How many slots a delete changes.
pub fn count_clearing(heights: &[u8], n: usize) -> usize
    requires { length heights.now ≡ n }
    ensures value { (e : Edition) (R : List ℕ) → result ≡ length (over (clear_plan e R heights.now) 0 n) }
    ensures upper_bound { result ≤ n }
{
    count_over(n, |i| usable::one_if(heights[i] != 0))
}
