// The length of a blob at edition one, in rows with a place for each slot of the pool.
ghost use Rattle.std.specs.Prelude.{◌≡◌, ◌≤◌, length};
ghost use Rattle.meaning.specs.Edition.{one};
ghost use Rattle.meaning.specs.Calls.{slots_in, length_call};
ghost use Rattle.meaning.specs.Answers.{answer_of};
ghost use Rattle.check_gate.specs.Places.{Clear};

use meaning::Refusal;
use rows_size::{FEW, MORE};

// In rows that are lent.
fn in_lent(
    pool: &[u8],
    records: &[u8],
    seen: &mut [u8],
    row: &mut [u32],
    root: u64,
) -> Result<u64, Refusal>
    requires { Clear one pool.now seen.old × (slots_in one pool.now ≤ length row.old) }
    ensures { result ≡ answer_of (length_call one pool.now records.now root) }
{
    let e = meaning::edition_one();
    call_length::length_call(e, pool, records, seen, row, root)
}

// In rows of N places, in a frame of their own.
#[inline(never)]
fn in_places<const N: usize>(pool: &[u8], records: &[u8], root: u64) -> Result<u64, Refusal>
    requires { (slots_in one pool.now ≤ N) × (N ≤ 65536) }
    ensures { result ≡ answer_of (length_call one pool.now records.now root) }
{
    let mut seen = [0u8; N];
    let mut row = [0u32; N];
    in_lent(pool, records, &mut seen, &mut row, root)
}

// In rows of the least size that suffices.
pub fn in_rows(pool: &[u8], records: &[u8], root: u64) -> Result<u64, Refusal>
    requires { slots_in one pool.now ≤ 65536 }
    ensures { result ≡ answer_of (length_call one pool.now records.now root) }
{
    match rows_size::slots_of(pool) {
        0..=FEW => in_places::<FEW>(pool, records, root),
        129..=MORE => in_places::<MORE>(pool, records, root),
        1025..=8192 => in_places::<8192>(pool, records, root),
        _ => in_places::<65536>(pool, records, root),
    }
}
