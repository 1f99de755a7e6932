// The right edge of a tree in numbers: the children of its blocks, the leaves that they have room for, and the blocks that those need.
ghost use Rattle.std.specs.Prelude.{◌≡◌, ◌^◌, ◌≤◌};
ghost use Rattle.laws_resize.specs.growth.Forms.{last_children, room, space};
ghost use Rattle.plan_tree.specs.edge.{Sized, Lacking};

use crate::subtrees;

// The children of the right edge's block of height h + 1, in a tree of n leaves.
fn last_children(fan: usize, h: usize, n: usize) -> usize
    requires { (2 ≤ fan) × (fan ^ h ≤ 2 ^ 50) × (1 ≤ n) }
    ensures { (result ≡ last_children fan h n) × (result ≤ fan) }
{
    (n - 1) / subtrees::power(fan, h) % fan + 1
}

// What adds up along the right edge below height h: at each height the children that its block lacks, each of that height's size.
fn lacking<F: Fn(usize, usize) -> usize>(fan: usize, h: usize, n: usize, size: F) -> usize
    requires fan_bound { (2 ≤ fan) × (fan ^ h ≤ 2 ^ 50) × (1 ≤ n) }
    requires sized { Sized fan h (F.pre size fan) (F.post size fan) }
    ensures { Lacking fan h n h (F.post size fan) result }
{
    let mut r = 0;
    for i in 0..h {
        r += (fan - last_children(fan, i, n)) * size(fan, i);
    }
    r
}

// The leaves that the right edge's block of height h has room for.
pub fn room(fan: usize, h: usize, n: usize) -> usize
    requires { (2 ≤ fan) × (fan ^ h ≤ 2 ^ 50) × (1 ≤ n) }
    ensures { (result ≡ room fan h n) × (result ≤ fan ^ h) }
{
    lacking(fan, h, n, subtrees::power)
}

// The blocks that those leaves need.
pub fn space(fan: usize, h: usize, n: usize) -> usize
    requires { (2 ≤ fan) × (fan ^ h ≤ 2 ^ 50) × (1 ≤ n) }
    ensures { (result ≡ space fan h n) × (result ≤ 2 ^ 51) }
{
    lacking(fan, h, n, subtrees::bulk)
}
