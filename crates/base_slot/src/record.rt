// One record: its fields, its check, its building.
ghost use Rattle.std.specs.Prelude.{◌≡◌, length};
ghost use Rattle.meaning.specs.Bytes.{record_with, state_of, recorded_of, sound_record};

use base_bytes::{number, runs};

// A record's state: 0 free, 1 part, 2 root. It is a number wherever it is compared or built, and no enum: the definitions speak of the
// number (`state`, `record_of`), and a record of a broken store may hold any byte there.
pub fn state_of(r: &[u8]) -> u8
    requires { length r.now ≡ 12 }
    ensures { result ≡ state_of r.now }
{
    r[2]
}

// A record's version.
pub fn version_of(r: &[u8]) -> u64
    requires { length r.now ≡ 12 }
    ensures { result ≡ recorded_of r.now }
{
    number::number_at::<8>(r, 4)
}

// The check of one record: whether it keeps its layout.
#[tactic(auto, unfolding(meaning::specs::Bytes::sound_record, meaning::specs::Lists::both, meaning::specs::Lists::pick))]
pub fn is_sound(r: &[u8]) -> bool
    requires { length r.now ≡ 12 }
    ensures { result ≡ sound_record r.now }
{
    let state = state_of(r);
    runs::starts_with(r, 0x52, 0x31)
        && state <= 2
        && r[3] == 0
        && (state == 0 || 1 <= version_of(r))
}

// A record with that state, fourth byte and version.
pub fn build(state: u8, fourth: u8, version: u64) -> [u8; 12]
    ensures { result ≡ record_with state fourth version }
{
    let mut r = [0u8; 12];
    r[0] = 0x52;
    r[1] = 0x31;
    r[2] = state;
    r[3] = fourth;
    number::put::<8>(&mut r, 4, version);
    r
}
