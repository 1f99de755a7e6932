// Where new blocks stand when a blob gets longer, in numbers: the height and first leaf of the block that is made p-th.
ghost use Rattle.std.specs.Prelude.{◌+◌, ◌^◌, ◌≤◌};
ghost use Rattle.laws_resize.specs.growth.Forms.{locate, in_row, seat};
ghost use Rattle.plan_tree.specs.seats.{Sits};

use crate::{edge, subtrees};

// Where a block stands: its height, and how many leaves lie before it.
#[derive(Clone, Copy, Drop)]
pub struct Seat {
    pub height: usize,
    pub first: usize,
}

// Of the p-th block of a new subtree of height h: where it stands in the subtree.
pub fn locate(fan: usize, h: usize, p: usize) -> Seat
    requires { (2 ≤ fan) × (fan ^ h ≤ 2 ^ 50) }
    ensures sits { Sits result (locate fan h p) }
    ensures first_le_p { (result.first ≤ p) × (result.height ≤ h) }
{
    let mut left = p;
    let mut first = 0;
    for height in (0..h).rev() {
        if left == 0 {
            return Seat {
                height: height + 1,
                first,
            };
        }
        let size = subtrees::bulk(fan, height);
        first += (left - 1) / size * subtrees::power(fan, height);
        left = (left - 1) % size;
    }
    Seat { height: 0, first }
}

// Of the p-th block of a row of new subtrees of height h, the first of which begins with the new leaf j.
pub fn in_row(fan: usize, h: usize, j: usize, p: usize) -> Seat
    requires { (2 ≤ fan) × (fan ^ h ≤ 2 ^ 50) × (j ≤ 2 ^ 50) × (p ≤ 2 ^ 51) }
    ensures sits { Sits result (in_row fan h j p) }
    ensures first_bound { (result.first ≤ j + p) × (result.height ≤ h) }
{
    let size = subtrees::bulk(fan, h);
    let s = locate(fan, h, p % size);
    Seat {
        height: s.height,
        first: j + p / size * subtrees::power(fan, h) + s.first,
    }
}

// Of the p-th new block, where a tree of height h and n leaves is filled.
pub fn edge_seat(fan: usize, h: usize, n: usize, p: usize) -> Seat
    requires { (2 ≤ fan) × (fan ^ h ≤ 2 ^ 50) × (1 ≤ n) × (p ≤ 2 ^ 51) }
    ensures sits { Sits result (seat fan h n p) }
    ensures first_bound { (result.first ≤ fan ^ h + p) × (result.height ≤ h) }
{
    for height in (0..h).rev() {
        let below = edge::space(fan, height, n);
        if below <= p {
            return in_row(fan, height, edge::room(fan, height, n), p - below);
        }
    }
    Seat {
        height: 0,
        first: 0,
    }
}
