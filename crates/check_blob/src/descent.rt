// A block is visited, then its children in row order, each with all below it: the block visit calls the row visit, which calls the block
// visit. A root stands in no row: it is visited first, and then its row. So the row visit alone calls the block visit, and the compiler
// puts that one into its loop, where a leaf takes no call.
ghost use Rattle.std.specs.Prelude.{◌≡◌, true, drop};
ghost use Rattle.meaning.specs.Lists.{fours};
ghost use Rattle.meaning.specs.Edition.{Proper};
ghost use Rattle.meaning.specs.Bytes.{block};
ghost use Rattle.check_blob.specs.notes.{met, note, notes, Small, BlockStart, RowStart};

use crate::{notes, visit};
use base_slot::{fields, slot};
use meaning::{Edition, Refusal, Role};

// Visits a root of height h, and then its row. The slots of its leaves are noted in order.
pub fn visit_root(
    e: Edition,
    pool: &[u8],
    records: &[u8],
    seen: &mut [u8],
    row: &mut [u32],
    n: usize,
    h: usize,
    slot: usize,
) -> Result<(u64, usize), Refusal>
    requires proper { Proper e }
    requires block_start { BlockStart e n pool.now records.now seen.old Role.Root slot 0 0 }
    ensures { met result seen.new row.new ≡ note e n pool.now records.now h Role.Root true seen.old slot 0 0 row.old }
{
    visit::check_and_mark(e, pool, records, seen, h, true, true, slot)?;
    let count = fields::count_of(slot::block_of(e, pool, slot));
    if h == 0 {
        notes::note_leaf(row, 0, slot);
        return Ok((count as u64, 1));
    }
    visit_row(
        e,
        pool,
        records,
        seen,
        row,
        n,
        h - 1,
        slot,
        true,
        count,
        0,
        0,
    )
}

// Visits a block of height h, and then its row. The slots of its leaves are noted in order.
#[cycle(visit_block_visit_row)]
fn visit_block(
    e: Edition,
    pool: &[u8],
    records: &[u8],
    seen: &mut [u8],
    row: &mut [u32],
    n: usize,
    h: usize,
    role: Role,
    edge: bool,
    slot: usize,
    bytes: u64,
    leaves: usize,
) -> Result<(u64, usize), Refusal>
    requires proper { Proper e }
    requires block_start { BlockStart e n pool.now records.now seen.old role slot bytes leaves }
    ensures row_after { met result seen.new row.new ≡ note e n pool.now records.now h role edge seen.old slot bytes leaves row.old }
    ensures small { Small result seen.new }
{
    visit::visit(e, pool, records, seen, n, h, role, edge, slot)?;
    let count = fields::count_of(slot::block_of(e, pool, slot));
    if h == 0 {
        notes::note_leaf(row, leaves, slot);
        return Ok((bytes + count as u64, leaves + 1));
    }
    let w = h - 1;
    // A copy of its own for the row: the compiler then makes one for inner blocks only, and none for a leaf.
    let below = e;
    visit_row(
        below, pool, records, seen, row, n, w, slot, edge, count, bytes, leaves,
    )
}

// Visits the children of a block, so many, each of height w, in order.
#[cycle(visit_block_visit_row)]
fn visit_row(
    e: Edition,
    pool: &[u8],
    records: &[u8],
    seen: &mut [u8],
    row: &mut [u32],
    n: usize,
    w: usize,
    parent: usize,
    edge: bool,
    count: usize,
    bytes: u64,
    leaves: usize,
) -> Result<(u64, usize), Refusal>
    requires proper { Proper e }
    requires row_start { RowStart e n pool.now records.now seen.old parent 0 count bytes leaves }
    ensures row_after { met result seen.new row.new ≡ notes e n pool.now records.now w parent edge (fours count (drop 16 (block e pool.now parent))) seen.old bytes leaves row.old }
    ensures small { Small result seen.new }
{
    let mut b = bytes;
    let mut k = leaves;
    for from in 0..count {
        let child = visit::child_of(e, pool, parent, from);
        let last = notes::last_of(edge, count - from);
        let role = Role::Child(parent);
        let here = visit_block(e, pool, records, seen, row, n, w, role, last, child, b, k);
        // By let .. else, document 01's form where the answer's type stays the same.
        let Ok((more, further)) = here else {
            return here;
        };
        b = more;
        k = further;
    }
    Ok((b, k))
}
