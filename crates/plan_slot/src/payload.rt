// A payload drawn in a lent part, without writing to the store: usable slots as children, a block's first payload bytes, and how many bytes a leaf
// holds.
ghost use Rattle.std.specs.Prelude.{◌≡◌, map, ◌+◌, ◌*◌, ◌^◌, ◌≤◌, length};
ghost use Rattle.meaning.specs.Lists.{joined, part, padded, pasted, bytes};
ghost use Rattle.meaning.specs.Edition.{Proper};
ghost use Rattle.meaning.specs.Resize.{share};
ghost use Rattle.laws.proofs.Numbers.{OfBytes};
ghost use Rattle.laws_resize.specs.growth.Forms.{every};

use base_bytes::{number, runs};
use base_slot::usable;
use meaning::Edition;

// A block's height and count.
#[derive(Clone, Copy, Drop, Eq, PartialEq)]
pub struct Drawn {
    pub height: u8,
    pub count: u8,
}

// Child slots from place `at` of a payload on: `count` of the usable slots, from number `from` on, each `step` further.
pub fn put_slots(
    payload: &mut [u8],
    at: usize,
    free: &[u32],
    from: usize,
    step: usize,
    count: usize,
)
    requires count_in_bounds { (4 * (at + count) ≤ length payload.old) × (length payload.old ≤ 255) }
    requires from_bound { (from ≤ 2 ^ 52) × (step ≤ 2 ^ 52) }
    ensures { payload.new ≡ pasted (4 * at) (joined (map (bytes 4) (every free.now step count from))) payload.old }
{
    let mut k = from;
    for i in 0..count {
        let slot = usable::nth(free, k);
        number::put::<4>(payload, 4 * (at + i), slot as u64);
        k += step;
    }
}

// The first bytes of a block's payload, zeros after. What is lent as bytes is bytes.
pub fn copy_payload(payload: &mut [u8], block: &[u8], used: usize)
    requires { (used ≤ length payload.old) × (16 + used ≤ length block.now) }
    ensures payload_after { payload.new ≡ padded (length payload.old) (part 16 used block.now) }
    ensures of_bytes { OfBytes block.now }
{
    runs::clear(payload);
    runs::fill(&mut payload[0..used], block, 16);
}

// How many bytes of a length the i-th leaf holds.
pub fn share_of(e: Edition, len: usize, i: usize) -> usize
    requires proper { Proper e }
    requires i_bound { i ≤ 2 ^ 50 }
    ensures { (result ≡ share e len i) × (result ≤ e.leaf) }
{
    let start = e.leaf * i;
    e.leaf.min(len.saturating_sub(start))
}
