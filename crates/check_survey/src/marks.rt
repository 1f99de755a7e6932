// One block of a blob noted in two lent rows, at its slot: its height and its first leaf.
ghost use Rattle.std.specs.Prelude.{◌≡◌, ◌+◌, ◌-◌, ◌^◌, ◌≤◌, ◌<◌, length, get_or, set, MatchOption};

// What is noted of a blob, as it is read: for each slot one more than the height of the blob's block there, or 0, and that block's first leaf.
#[derive(Clone, Copy, Drop)]
pub struct Notes<'a> {
    pub heights: &'a [u8],
    pub firsts: &'a [u32],
}

impl<'a> Notes<'a> {
    // The height of the blob's block in slot i; none, where the slot is none of the blob.
    pub fn height_at(self, i: usize) -> Option<usize>
        requires { i < length self.heights.now }
        ensures { MatchOption result (get_or self.entry.heights.now i 0 ≡ 0) (λ h. (get_or self.entry.heights.now i 0 ≡ 0 → ⊥) × (h ≡ get_or self.entry.heights.now i 0 - 1) × (h < 256)) }
    {
        (self.heights[i] as usize).checked_sub(1)
    }

    // The first leaf of that block.
    pub fn first_at(self, i: usize) -> usize
        requires { i < length self.firsts.now }
        ensures { (result ≡ get_or self.entry.firsts.now i 0) × (result ≤ 2 ^ 50) }
    {
        self.firsts[i] as usize
    }
}

// Notes one block: one more than its height, and its first leaf. The height noted is one byte a slot, with 0 for none: a row of
// `Option<u8>` takes two, and the stack of the C interface is bounded.
pub fn note_slot(heights: &mut [u8], firsts: &mut [u32], slot: usize, h: usize, first: usize)
    requires slot_in_bounds { (slot < length heights.old) × (slot < length firsts.old) }
    requires h_bound { (h < 255) × (first < 2 ^ 32) }
    ensures { (heights.new ≡ set heights.old slot (h + 1)) × (firsts.new ≡ set firsts.old slot first) }
{
    heights[slot] = (h + 1) as u8;
    firsts[slot] = first as u32;
}
