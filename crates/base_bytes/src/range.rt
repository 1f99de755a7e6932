// Ranges of bytes.
ghost use Rattle.std.specs.Prelude.{◌≡◌, ◌+◌, not, ltb};

// Whether so many bytes hold the range from an offset on. No sum can wrap.
pub fn lies_within(bytes: u64, offset: u64, size: u64) -> bool
    ensures { result ≡ not (ltb bytes (offset + size)) }
{
    offset <= bytes && size <= bytes - offset
}
