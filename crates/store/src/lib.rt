// The store's calls, over two lent byte slices: the pool and the records.
#![tactic(auto)]

pub mod changes;
pub mod reads;

ghost use Rattle.std.specs.Prelude.{◌≡◌};
ghost use Rattle.meaning.specs.Edition.{one};
ghost use Rattle.meaning.specs.Refusals.{must, nowhere};
ghost use Rattle.meaning.specs.Calls.{sized};

use meaning::{Reason, Refusal};

// Refusal 1, which every public call makes before it has any rows.
fn check_lengths(pool: &[u8], records: &[u8]) -> Result<(), Refusal>
    ensures { result ≡ must (sized one pool.now records.now) (nowhere Reason.WrongLengths) (Ok tt) }
{
    if rows_size::is_sized(pool, records) {
        return Ok(());
    }
    Err(meaning::refuse_nowhere(Reason::WrongLengths))
}
