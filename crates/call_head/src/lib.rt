// The next bytes of a blob, found by position, for any edition: what a reading head hands out. It needs no record.
#![tactic(auto)]

pub mod copy;
pub mod descend;

ghost use Rattle.std.specs.Prelude.{◌≡◌, length};
ghost use Rattle.meaning.specs.Edition.{Proper};
ghost use Rattle.meaning.specs.Head.{head_at, handed, out_after};

use meaning::Edition;

// The next bytes of a blob of that root and length, from a place on: as many as out takes or as remain. Answers how many; the rest of out stays.
pub fn next_call(
    e: Edition,
    pool: &[u8],
    root: usize,
    len: usize,
    place: usize,
    out: &mut [u8],
) -> usize
    requires { Proper e }
    ensures value { result ≡ handed len place (length out.old) }
    ensures out_after { out.new ≡ out_after e pool.now (head_at root place len) out.old }
{
    if len <= place {
        return 0;
    }
    let count = out.len().min(len - place);
    let h = descend::height_at(e, pool, root);
    // Not a for: each turn goes on by as many bytes as it copied.
    let mut pos = 0;
    // No range: a turn copies up to the end of a row of leaves and says how far it came, and the first turn may start inside one.
    while pos < count {
        pos = copy::copy_some(e, pool, h, root, place, pos, count, out);
    }
    count
}
