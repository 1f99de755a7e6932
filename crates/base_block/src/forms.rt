// Check 3 of one block: its height, its count's range and the zeros after it. The block is a lent part, wherever that lies.
ghost use Rattle.std.specs.Prelude.{◌≡◌, ◌≤◌, length};
ghost use Rattle.meaning.specs.Edition.{Proper};
ghost use Rattle.meaning.specs.Shape.{least_count, most_count};
ghost use Rattle.meaning.specs.Walk.{used, formed};

use base_bytes::runs;
use base_slot::fields;
use meaning::Edition;

// The fewest that a block may hold, by its height, on the right edge or off it, as root or not.
fn least_of(e: Edition, h: usize, edge: bool, root: bool) -> usize
    ensures { result ≡ least_count e h edge root }
{
    if h == 0 {
        if edge {
            if root { 0 } else { 1 }
        } else {
            e.leaf
        }
    } else {
        if edge {
            if root { 2 } else { 1 }
        } else {
            e.fan
        }
    }
}

// The most that a block may hold, by its height.
fn most_of(e: Edition, h: usize) -> usize
    ensures { result ≡ most_count e h }
{
    if h == 0 { e.leaf } else { e.fan }
}

// The bytes of the payload that a count within its range uses.
fn used_of(e: Edition, h: usize, count: usize) -> usize
    requires proper { Proper e }
    requires count_bound { count ≤ most_count e h }
    ensures { (result ≡ used h count) × (result ≤ e.leaf) }
{
    if h == 0 { count } else { 4 * count }
}

// Check 3, as a block of height h.
pub fn formed_of(e: Edition, h: usize, root: bool, edge: bool, b: &[u8]) -> bool
    requires proper { Proper e }
    requires b_len { length b.now ≡ e.size }
    ensures { result ≡ formed e h root edge b.now }
{
    if fields::height_of(b) != h {
        return false;
    }
    let count = fields::count_of(b);
    if count < least_of(e, h, edge, root) {
        return false;
    }
    if most_of(e, h) < count {
        return false;
    }
    let from = 16 + used_of(e, h, count);
    let to = 16 + e.leaf;
    runs::all_zero(&b[from..to])
}
