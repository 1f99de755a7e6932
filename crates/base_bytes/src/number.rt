// Little-endian numbers in slices of bytes.
ghost use Rattle.std.specs.Prelude.{◌≡◌, ◌+◌, ◌^◌, ◌≤◌, ◌<◌, length};
ghost use Rattle.meaning.specs.Lists.{part, pasted, number, bytes};

// The number in W bytes from `at` on; it fits W bytes.
pub fn number_at<const W: usize>(s: &[u8], at: usize) -> u64
    requires { (W ≤ 8) × (at + W ≤ length s.now) }
    ensures value { result ≡ number (part at W s.now) }
    ensures bound { result < 256 ^ W }
{
    let mut all = [0u8; 8];
    all[..W].copy_from_slice(&s[at..at + W]);
    u64::from_le_bytes(all)
}

// The W lowest bytes of a number put at `at`.
pub fn put<const W: usize>(s: &mut [u8], at: usize, x: u64)
    requires { (W ≤ 8) × (at + W ≤ length s.old) }
    ensures { s.new ≡ pasted at (bytes W x) s.old }
{
    s[at..at + W].copy_from_slice(&x.to_le_bytes()[..W]);
}

// The whole slice becomes the lowest bytes of a number, as many as it has.
pub fn put_number(dst: &mut [u8], x: u64)
    ensures { dst.new ≡ bytes (length dst.old) x }
{
    let mut rest = x;
    for i in 0..dst.len() {
        dst[i] = (rest % 256) as u8;
        rest /= 256;
    }
}
