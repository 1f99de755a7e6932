// A reading head at edition one. It keeps hold of the pool that it reads from, the blob's root and the place of the next byte, and what opening answered.
// Each function that takes, makes or returns a head is thin and has no branch. The work is done on plain slices and numbers, by `next_bytes`, which
// serves whoever has no head in hand.
#![tactic(auto)]

ghost use Rattle.std.specs.Prelude.{◌≡◌, ◌+◌, ◌^◌, ◌<◌, length};
ghost use Rattle.meaning.specs.Edition.{one};
ghost use Rattle.meaning.specs.Calls.{length_call};
ghost use Rattle.meaning.specs.Answers.{answer_of};
ghost use Rattle.meaning.specs.Head.{head_at, handed, out_after};
ghost use Rattle.store_head.specs.Held.{bytes_of, place_after, out_from, head_after};

use meaning::Refusal;

#[derive(Clone, Copy, Drop)]
pub struct Head<'a> {
    pub pool: &'a [u8],
    pub root: u64,
    pub place: u64,
    pub answer: Result<u64, Refusal>,
}

// The next bytes of a blob of that root and length, from a place on: as many as out takes or as remain; the rest of out stays. Answers how many. Any pool
// and any numbers may come in.
pub fn next_bytes(pool: &[u8], root: u64, len: u64, place: u64, out: &mut [u8]) -> u64
    ensures value { result ≡ handed len place (length out.old) }
    ensures out_after { out.new ≡ out_after one pool.now (head_at root place len) out.old }
    ensures result_bound { place + result < 2 ^ 64 }
{
    let e = meaning::edition_one();
    call_head::next_call(e, pool, root as usize, len as usize, place as usize, out) as u64
}

// How many bytes the blob has; none, where opening was refused.
fn bytes_of(answer: Result<u64, Refusal>) -> u64
    ensures { result ≡ bytes_of answer }
{
    answer.unwrap_or(0)
}

// The next bytes by what opening answered, and the place behind them.
fn next_place(
    pool: &[u8],
    root: u64,
    place: u64,
    answer: Result<u64, Refusal>,
    out: &mut [u8],
) -> u64
    ensures { (result ≡ place_after root place answer (length out.old)) × (out.new ≡ out_from pool.now root place answer out.old) }
{
    let len = bytes_of(answer);
    place + next_bytes(pool, root, len, place, out)
}

// The blob check, once, with the refusals of length; the head stands at place 0.
pub fn open<'a>(pool: &'a [u8], records: &[u8], root: u64) -> Head<'a>
    ensures { (result.pool ≡ pool.entry) × (result.root ≡ root) × (result.place ≡ 0) × (result.answer ≡ answer_of (length_call one pool.now records.now root)) }
{
    let answer = store::reads::length(pool, records, root);
    Head {
        pool,
        root,
        place: 0,
        answer,
    }
}

// The next bytes, as many as out takes or as remain; the rest of out stays. The head that is handed back stands behind them.
pub fn next<'a>(h: Head<'a>, out: &mut [u8]) -> Head<'a>
    ensures { (result ≡ head_after h.entry (length out.old)) × (out.new ≡ out_from h.entry.pool.now h.entry.root h.entry.place h.entry.answer out.old) }
{
    let place = next_place(h.pool, h.root, h.place, h.answer, out);
    Head {
        pool: h.pool,
        root: h.root,
        place,
        answer: h.answer,
    }
}

// The first bytes of a blob, by a head that is opened for them, and how many they are: for whoever has no head in hand.
pub fn first_bytes(pool: &[u8], records: &[u8], root: u64, out: &mut [u8]) -> u64
    ensures { (result ≡ place_after root 0 (answer_of (length_call one pool.now records.now root)) (length out.old)) × (out.new ≡ out_from pool.now root 0 (answer_of (length_call one pool.now records.now root)) out.old) }
{
    let h = next(open(pool, records, root), out);
    h.place
}
