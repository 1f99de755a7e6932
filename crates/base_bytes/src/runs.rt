// Runs of bytes: put into a lent part, or looked at for zeros or for the first two.
ghost use Rattle.std.specs.Prelude.{◌≡◌, ◌+◌, ◌-◌, ◌%◌, ◌≤◌, min, [], ◌∷◌, length, take, replicate};
ghost use Rattle.meaning.specs.Lists.{part, pasted, same_list, zeros};

// The whole lent part becomes the bytes of `src` from `from` on. A loop, since the library's `copy_from_slice` asks C for memmove (the C interface: memcpy and
// memset are all that the archive needs).
pub fn fill(dst: &mut [u8], src: &[u8], from: usize)
    requires { from + length dst.old ≤ length src.now }
    ensures { dst.new ≡ part from (length dst.old) src.now }
{
    for i in 0..dst.len() {
        dst[i] = src[from + i];
    }
}

// The whole lent part becomes zeros.
pub fn clear(dst: &mut [u8])
    ensures { dst.new ≡ replicate (length dst.old) 0 }
{
    dst.fill(0);
}

// New bytes put over those from `at` on.
pub fn paste(dst: &mut [u8], at: usize, new: &[u8])
    requires { at + length new.now ≤ length dst.old }
    ensures { dst.new ≡ pasted at new.now dst.old }
{
    let end = at + new.len();
    fill(&mut dst[at..end], new, 0);
}

// Zeros put over all bytes from `at` on.
pub fn clear_from(dst: &mut [u8], at: usize)
    requires { at ≤ length dst.old }
    ensures { dst.new ≡ pasted at (replicate (length dst.old - at) 0) dst.old }
{
    let end = dst.len();
    clear(&mut dst[at..end]);
}

// How many bytes may be copied at once from a place on: to the end of the payload that it lies in, and no more than are left.
pub fn stretch_from(leaf: usize, place: usize, left: usize) -> usize
    requires { 1 ≤ leaf }
    ensures { result ≡ min (leaf - place % leaf) left }
{
    (leaf - place % leaf).min(left)
}

// Whether the first two bytes are these.
pub fn starts_with(s: &[u8], x: u8, y: u8) -> bool
    requires { 2 ≤ length s.now }
    ensures { result ≡ same_list (take 2 s.now) (x ∷ y ∷ []) }
{
    s.starts_with(&[x, y])
}

// Whether eight bytes are all zero: whether the number in them is.
fn eight_zero(b: &[u8; 8]) -> bool
    ensures { result ≡ zeros b.now }
{
    u64::from_le_bytes(*b) == 0
}

// Whether every byte is zero. Eight are looked at in one number, as long as so many are left.
pub fn all_zero(s: &[u8]) -> bool
    ensures { result ≡ zeros s.now }
{
    let (eights, rest) = s.as_chunks::<8>();
    eights.iter().all(|b| eight_zero(b)) && rest.iter().all(|b| *b == 0)
}
