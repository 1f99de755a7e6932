// The check of one block, checks 2 and 3. It takes the block as a lent part, wherever that lies.
#![tactic(auto)]

pub mod build;
pub mod flaws;
pub mod forms;

ghost use Rattle.std.specs.Prelude.{◌≡◌, length};
ghost use Rattle.meaning.specs.Edition.{Proper};
ghost use Rattle.meaning.specs.Walk.{block_check};

use meaning::{Edition, Reason, Refusal};

// Checks 2 and 3 of a block in a slot whose record has that version.
pub fn check_block(
    e: Edition,
    h: usize,
    root: bool,
    edge: bool,
    version: u64,
    slot: usize,
    b: &[u8],
) -> Result<(), Refusal>
    requires proper { Proper e }
    requires b_len { length b.now ≡ e.size }
    ensures { result ≡ block_check e h root edge version slot b.now }
{
    if let Some(flaw) = flaws::flaw_of(e, version, slot, b) {
        return Err(meaning::refuse_at(flaw, slot));
    }
    if forms::formed_of(e, h, root, edge, b) {
        return Ok(());
    }
    Err(meaning::refuse_at(Reason::WrongShape, slot))
}
