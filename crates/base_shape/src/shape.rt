// The shape of a blob: its leaves, its height and its blocks, for any payload and fan-out.
ghost use Rattle.std.specs.Prelude.{◌≡◌, ◌^◌, ◌≤◌};
ghost use Rattle.meaning.specs.Shape.{leaves_for, height_for, total};

use crate::sheet;

// The leaves of a length.
pub fn leaf_count(leaf: u64, len: u64) -> u64
    requires { 1 ≤ leaf }
    ensures { result ≡ leaves_for leaf len }
{
    if len == 0 {
        return 1;
    }
    (len - 1) / leaf + 1
}

// The height of a blob of n leaves: that of its rounded-up share, and one more. (div_ceil would compare a remainder too: a block total took a third longer.)
pub fn height_for(fan: u64, n: u64) -> u64
    requires { (2 ≤ fan) × (fan ≤ 2 ^ 32) × (n ≤ 2 ^ 62) }
    ensures { (result ≡ height_for fan n) × (result ≤ n) }
{
    if n <= 1 {
        return 0;
    }
    height_for(fan, (n + (fan - 1)) / fan) + 1
}

// The block total of n leaves: from the sheet where it has a row; otherwise n, and the block total of its rounded-up share.
pub fn block_total(fan: u64, n: u64) -> u64
    requires { (2 ≤ fan) × (fan ≤ 2 ^ 32) × (n ≤ 2 ^ 62) }
    ensures { result ≡ total fan n }
{
    if fan == 12 && 1 <= n && n <= 937 {
        return sheet::total_of(n);
    }
    if n <= 1 {
        return n;
    }
    n + block_total(fan, (n + (fan - 1)) / fan)
}
