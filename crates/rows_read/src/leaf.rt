// Where a leaf's data bytes lie at edition one, in rows with a place for each slot of the pool.
ghost use Rattle.std.specs.Prelude.{◌≡◌, ◌≤◌, length};
ghost use Rattle.meaning.specs.Edition.{one};
ghost use Rattle.meaning.specs.Calls.{slots_in, show_call};
ghost use Rattle.meaning.specs.Answers.{leaf_answer};
ghost use Rattle.call_show.specs.place.{Lies};
ghost use Rattle.check_gate.specs.Places.{Clear};

use call_show::find;
use meaning::Refusal;
use rows_size::{FEW, MORE};

// In rows that are lent.
fn in_lent(
    pool: &[u8],
    records: &[u8],
    seen: &mut [u8],
    row: &mut [u32],
    root: u64,
    leaf: u64,
) -> Result<(usize, usize), Refusal>
    requires { Clear one pool.now seen.old × (slots_in one pool.now ≤ length row.old) }
    ensures value { result ≡ leaf_answer one (show_call one pool.now records.now root leaf) }
    ensures lies { Lies result (length pool.now) }
{
    let e = meaning::edition_one();
    find::find_leaf_call(e, pool, records, seen, row, root, leaf)
}

// In rows of N places, in a frame of their own.
#[inline(never)]
fn in_places<const N: usize>(
    pool: &[u8],
    records: &[u8],
    root: u64,
    leaf: u64,
) -> Result<(usize, usize), Refusal>
    requires { (slots_in one pool.now ≤ N) × (N ≤ 65536) }
    ensures value { result ≡ leaf_answer one (show_call one pool.now records.now root leaf) }
    ensures lies { Lies result (length pool.now) }
{
    let mut seen = [0u8; N];
    let mut row = [0u32; N];
    in_lent(pool, records, &mut seen, &mut row, root, leaf)
}

// In rows of the least size that suffices.
pub fn in_rows(pool: &[u8], records: &[u8], root: u64, leaf: u64) -> Result<(usize, usize), Refusal>
    requires { slots_in one pool.now ≤ 65536 }
    ensures value { result ≡ leaf_answer one (show_call one pool.now records.now root leaf) }
    ensures lies { Lies result (length pool.now) }
{
    match rows_size::slots_of(pool) {
        0..=FEW => in_places::<FEW>(pool, records, root, leaf),
        129..=MORE => in_places::<MORE>(pool, records, root, leaf),
        1025..=8192 => in_places::<8192>(pool, records, root, leaf),
        _ => in_places::<65536>(pool, records, root, leaf),
    }
}
