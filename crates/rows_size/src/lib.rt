// Which rows suffice for a pool? Rows are a call's notes, with a place for each slot, and stand on the stack. There are four sizes, 128, 1,024, 8,192
// and 65,536 places, and a call takes the least that suffices: a small pool does not pay for a large one.
#![tactic(auto)]

ghost use Rattle.std.specs.Prelude.{◌≡◌};
ghost use Rattle.meaning.specs.Edition.{one};
ghost use Rattle.meaning.specs.Calls.{slots_in, sized};

// The places of the smallest rows, and of the next.
pub const FEW: usize = 128;

pub const MORE: usize = 1024;

// How many slots a pool has.
pub fn slots_of(pool: &[u8]) -> usize
    ensures { result ≡ slots_in one pool.now }
{
    pool.len() / 64
}

// Whether pool and records have the lengths of the same number of slots: refusal 1 does not hold.
pub fn is_sized(pool: &[u8], records: &[u8]) -> bool
    ensures { result ≡ sized one pool.now records.now }
{
    let e = meaning::edition_one();
    check_gate::is_sized(e, pool, records)
}
