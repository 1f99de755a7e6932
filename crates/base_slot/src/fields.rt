// A block's height, count and child slots, read from its bytes. The block is a lent part, wherever that lies.
ghost use Rattle.std.specs.Prelude.{◌≡◌, ◌+◌, ◌*◌, ◌≤◌, length};
ghost use Rattle.meaning.specs.Lists.{part, number};
ghost use Rattle.meaning.specs.Bytes.{height_of, count_of};

use base_bytes::number;

// A block's height.
pub fn height_of(b: &[u8]) -> usize
    requires { 16 ≤ length b.now }
    ensures { (result ≡ height_of b.now) × (result ≤ 255) }
{
    b[2] as usize
}

// A block's count: bytes in a leaf, children in an inner block.
pub fn count_of(b: &[u8]) -> usize
    requires { 16 ≤ length b.now }
    ensures { (result ≡ count_of b.now) × (result ≤ 255) }
{
    b[3] as usize
}

// A block's child number i.
pub fn child_of(b: &[u8], i: usize) -> usize
    requires { 16 + 4 * i + 4 ≤ length b.now }
    ensures { result ≡ number (part (16 + 4 * i) 4 b.now) }
{
    number::number_at::<4>(b, 16 + 4 * i) as usize
}
