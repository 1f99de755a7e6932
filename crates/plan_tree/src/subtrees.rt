// Full subtrees in numbers: their leaves and blocks, the highest that has a number of blocks or fewer, and how many of them some leaves need.
ghost use Rattle.std.specs.Prelude.{◌≡◌, ◌^◌, suc, ◌≤◌, ◌<◌};
ghost use Rattle.laws_resize.specs.growth.Forms.{bulk, places};

// The fan-out to the power h. The library's `pow` takes a `u32`, and where the fan-out is 1 the contract sets h no bound.
pub fn power(fan: usize, h: usize) -> usize
    requires { (1 ≤ fan) × (fan ^ h ≤ 2 ^ 50) }
    ensures { result ≡ fan ^ h }
{
    let mut w = 1;
    for _ in 0..h {
        w *= fan;
    }
    w
}

// The blocks of a full subtree of height h.
pub fn bulk(fan: usize, h: usize) -> usize
    requires { (2 ≤ fan) × (fan ^ h ≤ 2 ^ 50) }
    ensures { (result ≡ bulk fan h) × (result ≤ 2 ^ 51) }
{
    let mut r = 1;
    for _ in 0..h {
        r = 1 + fan * r;
    }
    r
}

// The height that a full root has when the block with this number is made: blocks are numbered in the order of making, the old ones first.
pub fn level_of(fan: usize, h: usize, top: usize, number: usize) -> usize
    requires le_fan { (2 ≤ fan) × (fan ^ top ≤ 2 ^ 50) × (h ≤ top) }
    requires h_bound { (bulk fan h ≤ number) × (number < bulk fan top) }
    ensures { (h ≤ result) × (result < top) × (bulk fan result ≤ number) × (number < bulk fan (suc result)) }
{
    // Not a range: the contract alone says that there is an end, and a level's blocks come from those of the one before.
    let mut level = h;
    let mut next = bulk(fan, h + 1);
    while next <= number {
        next = 1 + fan * next;
        level += 1;
    }
    level
}

// Of m new leaves, how many children of height h those from j on need, in a block with c places left.
pub fn places(fan: usize, m: usize, c: usize, h: usize, j: usize) -> usize
    requires { (2 ≤ fan) × (fan ^ h ≤ 2 ^ 50) × (m ≤ 2 ^ 50) }
    ensures { (result ≡ places fan m c h j) × (result ≤ c) }
{
    let each = power(fan, h);
    c.min(m.saturating_sub(j).div_ceil(each))
}
