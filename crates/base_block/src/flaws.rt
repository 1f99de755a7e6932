// Check 2 of one block: its mark, its own slot and its version. The block is a lent part, wherever that lies.
ghost use Rattle.std.specs.Prelude.{◌≡◌, length};
ghost use Rattle.meaning.specs.Edition.{Proper};
ghost use Rattle.meaning.specs.Walk.{flaw};

use base_bytes::{number, runs};
use meaning::{Edition, Reason};

// Check 2: what is wrong with the block, if anything is.
pub fn flaw_of(e: Edition, version: u64, slot: usize, b: &[u8]) -> Option<Reason>
    requires proper { Proper e }
    requires b_len { length b.now ≡ e.size }
    ensures { result ≡ flaw e version slot b.now }
{
    let mark = e.mark;
    if !runs::starts_with(b, mark[0], mark[1]) {
        return Some(Reason::Spoiled);
    }
    let own = number::number_at::<4>(b, 4) as usize;
    if own != slot {
        return Some(Reason::Moved);
    }
    let found = number::number_at::<8>(b, 8);
    if found < version {
        return Some(Reason::RolledBack);
    }
    if version < found {
        return Some(Reason::Ahead);
    }
    None
}
