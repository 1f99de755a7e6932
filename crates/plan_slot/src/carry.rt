// Carries out what a slot becomes in a changing call.
ghost use Rattle.std.specs.Prelude.{◌≡◌, ◌^◌, ◌≤◌, ◌<◌, length};
ghost use Rattle.meaning.specs.Edition.{Proper};
ghost use Rattle.meaning.specs.Bytes.{recorded};
ghost use Rattle.meaning.specs.Change.{puts};
ghost use Rattle.plan_slot.specs.change.Places.{Places};
ghost use Rattle.plan_slot.specs.turn.{turned, Rises};

use crate::change;
use crate::turn::Turn;
use base_slot::{record, slot};
use meaning::Edition;

// A slot's turn: its block, then its record.
pub fn carry_out(
    e: Edition,
    pool: &mut [u8],
    records: &mut [u8],
    scratch: &mut [u8],
    payload: &[u8],
    slot: usize,
    turn: Turn,
)
    requires proper { Proper e }
    requires places { Places e pool.old records.old scratch.old slot }
    requires slot_bound { (slot < 2 ^ 32) × (length payload.now ≤ e.leaf) }
    requires rises { Rises turn (recorded records.old slot) }
    ensures pool_after { pool.new ≡ puts e.size (λ c. c.block) (turned e records.old slot turn payload.now) pool.old }
    ensures records_after { records.new ≡ puts 12 (λ c. c.line) (turned e records.old slot turn payload.now) records.old }
{
    let line = slot::record_of(records, slot);
    let state = record::state_of(line);
    let version = record::version_of(line);
    match turn {
        Turn::Stays => {}
        Turn::Goes => change::put_free(e, pool, records, scratch, slot, version),
        Turn::Takes(drawn) => change::put_cell(
            e,
            pool,
            records,
            scratch,
            slot,
            drawn,
            payload,
            1,
            version + 1,
        ),
        Turn::Renews(drawn) => change::put_cell(
            e,
            pool,
            records,
            scratch,
            slot,
            drawn,
            payload,
            state,
            version + 1,
        ),
    }
}
