// What a walk notes of the blocks it visits: bytes, leaves and the row of leaf slots.
ghost use Rattle.std.specs.Prelude.{◌≡◌, ◌^◌, ◌<◌, set};
ghost use Rattle.check_blob.specs.notes.{last_of};

// Notes a leaf's slot, if the row reaches that far.
pub fn note_leaf(row: &mut [u32], at: usize, slot: usize)
    requires { slot < 2 ^ 32 }
    ensures { row.new ≡ set row.old at slot }
{
    if at < row.len() {
        row[at] = slot as u32;
    }
}

// Whether a child is on the right edge: the last one of a block that is.
#[tactic(auto, unfolding(crate::specs::notes::last_of, meaning::specs::Lists::both))]
pub fn last_of(edge: bool, left: usize) -> bool
    ensures { result ≡ last_of edge left }
{
    edge && left == 1
}
