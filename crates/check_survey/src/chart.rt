// What every call that changes one blob does behind refusals 1 and 2: refusal 3, the pool check, and the notes of where the blob's blocks stand.
ghost use Rattle.meaning.specs.Edition.{Proper};
ghost use Rattle.check_survey.specs.chart.{Room, Rooted};

use crate::sites;
use meaning::{Edition, Reason, Refusal};

// Refusal 3, then the pool check and the notes, in rows of n places.
pub fn survey_root(
    e: Edition,
    pool: &[u8],
    records: &[u8],
    seen: &mut [u8],
    row: &mut [u32],
    heights: &mut [u8],
    firsts: &mut [u32],
    n: usize,
    root: u64,
) -> Result<(u64, usize), Refusal>
    requires proper { Proper e }
    requires room { Room e n pool.now records.now seen.old row.old heights.old firsts.old }
    ensures { Rooted e n pool.now records.now root result row.new heights.new firsts.new }
{
    if !check_gate::is_root(records, n, root) {
        return Err(meaning::refuse_nowhere(Reason::NotARoot));
    }
    let at = root as usize;
    let walked = check_pool::check(e, pool, records, seen, row, n, Some(at));
    // By let .. else, document 01's form where the answer's type stays the same.
    let Ok((_, _)) = walked else {
        return walked;
    };
    sites::note_sites(e, pool, heights, firsts, n, at);
    walked
}
