// The row of leaf slots.
ghost use Rattle.std.specs.Prelude.{◌≡◌, ◌<◌, length, get_or};

// The slot that stands at a place of the row.
pub fn slot_at(row: &[u32], i: usize) -> usize
    requires { i < length row.now }
    ensures { result ≡ get_or row.now i 0 }
{
    row[i] as usize
}
