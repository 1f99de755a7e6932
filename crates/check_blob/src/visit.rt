// One visit of the walk: checks 1, 2 and 3, and the mark.
ghost use Rattle.std.specs.Prelude.{◌≡◌, ◌+◌, ◌*◌, ◌≤◌, ◌<◌, length};
ghost use Rattle.meaning.specs.Lists.{part, number};
ghost use Rattle.meaning.specs.Edition.{Proper};
ghost use Rattle.meaning.specs.Bytes.{block, recorded};
ghost use Rattle.meaning.specs.Walk.{block_check, is_root, link_check, one_visit};
ghost use Rattle.check_blob.specs.visit.{Sized, Within, met, marked};

use base_slot::{fields, record, slot};
use meaning::{Edition, Reason, Refusal, Role};

// Check 1 of a slot that is visited in that role.
pub fn check_link(
    records: &[u8],
    seen: &[u8],
    n: usize,
    role: Role,
    slot: usize,
) -> Result<(), Refusal>
    requires { (length records.now ≡ 12 * n) × (length seen.now ≡ n) }
    ensures { result ≡ link_check n records.now seen.now role slot }
{
    let Role::Child(parent) = role else {
        return Ok(());
    };
    let misplaced = meaning::refuse_at(Reason::WrongShape, parent);
    if n <= slot {
        return Err(misplaced);
    }
    let state = record::state_of(slot::record_of(records, slot));
    if state == 2 {
        return Err(misplaced);
    }
    if seen[slot] != 0 {
        return Err(misplaced);
    }
    if state != 1 {
        return Err(meaning::refuse_at(Reason::Reintroduced, slot));
    }
    Ok(())
}

// Whether a slot is visited as a root.
#[tactic(auto, unfolding(meaning::specs::Walk::is_root))]
fn is_root(role: Role) -> bool
    ensures { result ≡ is_root role }
{
    matches!(role, Role::Root)
}

// Checks 2 and 3 of a slot.
fn check_slot(
    e: Edition,
    pool: &[u8],
    records: &[u8],
    h: usize,
    root: bool,
    edge: bool,
    slot: usize,
) -> Result<(), Refusal>
    requires proper { Proper e }
    requires size_in_bounds { (e.size * slot + e.size ≤ length pool.now) × (12 * slot + 12 ≤ length records.now) }
    ensures { result ≡ block_check e h root edge (recorded records.now slot) slot (block e pool.now slot) }
{
    let version = record::version_of(slot::record_of(records, slot));
    let b = slot::block_of(e, pool, slot);
    base_block::check_block(e, h, root, edge, version, slot, b)
}

// Checks 2 and 3 of a slot, and the mark: all there is to a root's visit, since check 1 is for a child slot.
pub fn check_and_mark(
    e: Edition,
    pool: &[u8],
    records: &[u8],
    seen: &mut [u8],
    h: usize,
    root: bool,
    edge: bool,
    slot: usize,
) -> Result<(), Refusal>
    requires proper { Proper e }
    requires size_in_bounds { (e.size * slot + e.size ≤ length pool.now) × (12 * slot + 12 ≤ length records.now) }
    requires slot_in_bounds { slot < length seen.old }
    ensures { met result (block e pool.now slot) seen.new ≡ marked e pool.now records.now h root edge seen.old slot }
{
    let checked = check_slot(e, pool, records, h, root, edge, slot);
    // By let .. else, document 01's form where the answer's type stays the same.
    let Ok(()) = checked else {
        return checked;
    };
    // The flags are bytes, 0 and 1, and no bools: the definitions mark by `set seen s 1`.
    seen[slot] = 1;
    Ok(())
}

// One visit of a slot, as a block of height h.
pub fn visit(
    e: Edition,
    pool: &[u8],
    records: &[u8],
    seen: &mut [u8],
    n: usize,
    h: usize,
    role: Role,
    edge: bool,
    slot: usize,
) -> Result<(), Refusal>
    requires proper { Proper e }
    requires sized { Sized e n pool.now records.now seen.old }
    requires within { Within n role slot }
    ensures { met result (block e pool.now slot) seen.new ≡ one_visit e n pool.now records.now h role edge seen.old slot }
{
    let link = check_link(records, seen, n, role, slot);
    // By let .. else, document 01's form where the answer's type stays the same.
    let Ok(()) = link else {
        return link;
    };
    check_and_mark(e, pool, records, seen, h, is_root(role), edge, slot)
}

// A block's child number i.
pub fn child_of(e: Edition, pool: &[u8], slot: usize, i: usize) -> usize
    requires proper { Proper e }
    requires size_in_bounds { (e.size * slot + e.size ≤ length pool.now) × (i < e.fan) }
    ensures { result ≡ number (part (16 + 4 * i) 4 (block e pool.now slot)) }
{
    fields::child_of(slot::block_of(e, pool, slot), i)
}
