// What every call that changes one blob does first: refusals 1, 2 and 3, the pool check, and the notes of where the blob's blocks stand.
#![tactic(auto)]

pub mod chart;
pub mod marks;
pub mod refusal;
pub mod sites;
pub mod worn;

ghost use Rattle.meaning.specs.Edition.{Proper};
ghost use Rattle.check_survey.specs.Reached.{Rows, Reaches};

use meaning::{Edition, Refusal};

// The blob that a call reaches: the pool's slots, and the blob's bytes and leaves.
#[derive(Clone, Copy, Drop)]
pub struct Reached {
    pub slots: usize,
    pub bytes: u64,
    pub leaves: usize,
}

// Refusals 1 and 2, then what is behind them, in the rows' first n places.
pub fn reach(
    e: Edition,
    pool: &[u8],
    records: &[u8],
    seen: &mut [u8],
    row: &mut [u32],
    heights: &mut [u8],
    firsts: &mut [u32],
    root: u64,
) -> Result<Reached, Refusal>
    requires proper { Proper e }
    requires rows { Rows e pool.now seen.old row.old heights.old firsts.old }
    ensures { Reaches e pool.now records.now root result row.new heights.new firsts.new }
{
    let slots = check_gate::open(e, pool, records)?;
    let (bytes, leaves) = chart::survey_root(
        e,
        pool,
        records,
        &mut seen[0..slots],
        &mut row[0..slots],
        &mut heights[0..slots],
        &mut firsts[0..slots],
        slots,
        root,
    )?;
    Ok(Reached {
        slots,
        bytes,
        leaves,
    })
}
