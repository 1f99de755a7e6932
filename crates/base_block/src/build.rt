// A block built in a lent part.
ghost use Rattle.std.specs.Prelude.{◌≡◌, ◌+◌, ◌≤◌, length};
ghost use Rattle.meaning.specs.Edition.{Proper};
ghost use Rattle.meaning.specs.Bytes.{header, block_bytes};

use base_bytes::{number, runs};
use meaning::Edition;

// A block's first 16 bytes.
pub fn header_of(e: Edition, height: u8, count: u8, slot: u32, version: u64) -> [u8; 16]
    requires { Proper e }
    ensures { result ≡ header e height count slot version }
{
    let mark = e.mark;
    let mut h = [0u8; 16];
    h[0] = mark[0];
    h[1] = mark[1];
    h[2] = height;
    h[3] = count;
    number::put::<4>(&mut h, 4, slot as u64);
    number::put::<8>(&mut h, 8, version);
    h
}

// The whole lent part becomes a block: header, used payload, zeros after.
pub fn build_block(
    e: Edition,
    b: &mut [u8],
    height: u8,
    count: u8,
    slot: u32,
    version: u64,
    payload: &[u8],
)
    requires proper { Proper e }
    requires b_len { (length b.old ≡ e.size) × (length payload.now ≤ e.leaf) }
    ensures { b.new ≡ block_bytes e height count slot version payload.now }
{
    let h = header_of(e, height, count, slot, version);
    runs::paste(b, 0, &h);
    runs::paste(b, 16, payload);
    runs::clear_from(b, 16 + payload.len());
}
