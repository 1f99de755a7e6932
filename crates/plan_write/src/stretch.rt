// The plan of one slot of a write: the stretch of a leaf's bytes that changes. Nothing is written.
ghost use Rattle.std.specs.Prelude.{◌≡◌, ◌+◌, ◌-◌, ◌*◌, ◌^◌, ◌≤◌, ◌<◌, length, IfSome};
ghost use Rattle.meaning.specs.Edition.{Proper};
ghost use Rattle.meaning.specs.Lists.{part, same_list};
ghost use Rattle.meaning.specs.Bytes.{count_of};
ghost use Rattle.plan_write.specs.stretch.{touched_by, differing, plan_of, Changing, ChosenAt, Place, Counted};

use base_slot::{fields, slot};
use check_survey::marks::Notes;
use meaning::Edition;

// A stretch of a leaf's payload: count bytes, from `within` on, that come from `from` on in what is written.
#[derive(Clone, Copy, Drop)]
pub struct Stretch {
    pub within: usize,
    pub from: usize,
    pub count: usize,
}

// Of `held` bytes that begin at `base`, those that `size` bytes from the offset on touch.
fn touched(base: usize, held: usize, offset: usize, size: usize) -> Stretch
    ensures { result ≡ touched_by base held offset size }
{
    let within = offset.saturating_sub(base);
    let from = base.saturating_sub(offset);
    let count = held.saturating_sub(within).min(size.saturating_sub(from));
    Stretch {
        within,
        from,
        count,
    }
}

// Where the bytes of a leaf with that number begin.
fn leaf_start(e: Edition, first: usize) -> usize
    requires proper { Proper e }
    requires first_bound { first ≤ 2 ^ 50 }
    ensures { result ≡ e.leaf * first }
{
    e.leaf * first
}

// Whether so many bytes are the same, from `at` on in b and from `from` on in src.
fn same_bytes(b: &[u8], at: usize, src: &[u8], from: usize, count: usize) -> bool
    requires { (at + count ≤ length b.now) × (from + count ≤ length src.now) }
    ensures { result ≡ same_list (part at count b.now) (part from count src.now) }
{
    &b[at..at + count] == &src[from..from + count]
}

// The stretch of a leaf's block that changes, none where its bytes stay.
fn differing_in(e: Edition, b: &[u8], src: &[u8], first: usize, offset: usize) -> Option<Stretch>
    requires proper { Proper e }
    requires first_bound { first ≤ 2 ^ 50 }
    requires b_len { (length b.now ≡ e.size) × (count_of b.now ≤ e.leaf) }
    ensures value { result ≡ differing e b.now src.now first offset }
    ensures chosen { IfSome result (λ t. Changing b.now src.now t) }
{
    let t = touched(leaf_start(e, first), fields::count_of(b), offset, src.len());
    if t.count == 0 {
        return None;
    }
    if same_bytes(b, 16 + t.within, src, t.from, t.count) {
        return None;
    }
    Some(t)
}

// The plan of one slot: the stretch of it that changes; none where it is no leaf of the blob, or its bytes stay. Nothing is written.
pub fn plan_slot(
    e: Edition,
    pool: &[u8],
    notes: Notes,
    src: &[u8],
    offset: usize,
    i: usize,
) -> Option<Stretch>
    requires proper { Proper e }
    requires place { Place e pool.now notes.heights.now notes.firsts.now i }
    requires counted { Counted e pool.now notes.heights.now i }
    ensures value { result ≡ plan_of e pool.now notes.entry.heights.now notes.entry.firsts.now src.now offset i }
    ensures chosen_at { IfSome result (λ t. ChosenAt e pool.now notes.entry.heights.now src.now i t) }
{
    let Some(0) = notes.height_at(i) else {
        return None;
    };
    let b = slot::block_of(e, pool, i);
    differing_in(e, b, src, notes.first_at(i), offset)
}
