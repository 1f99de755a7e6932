// The audit at edition one, in rows with a place for each slot of the pool.
ghost use Rattle.std.specs.Prelude.{◌≡◌, ◌≤◌};
ghost use Rattle.meaning.specs.Edition.{one};
ghost use Rattle.meaning.specs.Calls.{slots_in, audit_call};
ghost use Rattle.meaning.specs.Answers.{answer_of};
ghost use Rattle.check_gate.specs.Places.{Clear};

use meaning::Refusal;
use rows_size::{FEW, MORE};

// In rows that are lent.
fn in_lent(pool: &[u8], records: &[u8], seen: &mut [u8]) -> Result<u64, Refusal>
    requires { Clear one pool.now seen.old }
    ensures { result ≡ answer_of (audit_call one pool.now records.now) }
{
    let e = meaning::edition_one();
    let mut none = [0u32; 0];
    call_audit::audit_call(e, pool, records, seen, &mut none)
}

// In rows of N places, in a frame of their own.
#[inline(never)]
fn in_places<const N: usize>(pool: &[u8], records: &[u8]) -> Result<u64, Refusal>
    requires { (slots_in one pool.now ≤ N) × (N ≤ 65536) }
    ensures { result ≡ answer_of (audit_call one pool.now records.now) }
{
    let mut seen = [0u8; N];
    in_lent(pool, records, &mut seen)
}

// In rows of the least size that suffices.
pub fn in_rows(pool: &[u8], records: &[u8]) -> Result<u64, Refusal>
    requires { slots_in one pool.now ≤ 65536 }
    ensures { result ≡ answer_of (audit_call one pool.now records.now) }
{
    match rows_size::slots_of(pool) {
        0..=FEW => in_places::<FEW>(pool, records),
        129..=MORE => in_places::<MORE>(pool, records),
        1025..=8192 => in_places::<8192>(pool, records),
        _ => in_places::<65536>(pool, records),
    }
}
