// A change of one blob at edition one, in rows with a place for each slot of the pool.
ghost use Rattle.std.specs.Prelude.{◌≡◌, ◌≤◌, List, ℕ, false};
ghost use Rattle.meaning.specs.Edition.{one};
ghost use Rattle.meaning.specs.Refusals.{nowhere};
ghost use Rattle.meaning.specs.declared.Reason.TheVariants.{WrongLengths};
ghost use Rattle.meaning.specs.Calls.{Outcome, refused, slots_in, sized, delete_call, write_call, resize_call};
ghost use Rattle.meaning.specs.Answers.{answer_of, Ends};
ghost use Rattle.check_survey.specs.Reached.{Rows};
ghost use Rattle.rows_change.specs.change.{no_delete, no_write, no_resize};

use meaning::Refusal;
use rows_size::{FEW, MORE};

// What is to become of a blob: one of document 01's calls.
pub trait Change: Drop {
    ghost call: { Self → (P R : List ℕ) → Outcome (Unit {0}) };

    // The call in rows that are lent. They stay four parameters: the calls take them one by one, and a struct of them would be taken apart here at once.
    fn in_lent(
        self,
        pool: &mut [u8],
        records: &mut [u8],
        seen: &mut [u8],
        row: &mut [u32],
        heights: &mut [u8],
        firsts: &mut [u32],
    ) -> Result<(), Refusal>
        requires { Rows one pool.old seen.old row.old heights.old firsts.old }
        ensures { Ends one answer_of (call self pool.old records.old) pool.old records.old result pool.new records.new };

    // Where the lengths are wrong, it is refused with 1.
    ghost barred: { (s : Self) (P R : List ℕ) → sized one P R ≡ false → call s P R ≡ refused (nowhere WrongLengths) };
}

// Every block of it goes.
#[derive(Clone, Copy, Drop)]
pub struct Delete {
    pub root: u64,
}

impl Change for Delete {
    ghost call = { λ s P R. delete_call one P R s.root };

    // In rows that are lent, with room for one block.
    fn in_lent(
        self,
        pool: &mut [u8],
        records: &mut [u8],
        seen: &mut [u8],
        row: &mut [u32],
        heights: &mut [u8],
        firsts: &mut [u32],
    ) -> Result<(), Refusal> {
        let e = meaning::edition_one();
        let mut scratch = [0u8; 64];
        call_delete::delete_call(
            e,
            pool,
            records,
            seen,
            row,
            heights,
            firsts,
            &mut scratch,
            self.root,
        )
    }

    ghost barred = { λ s P R. no_delete P R _ };
}

// Bytes are put inside its length, from an offset on.
#[derive(Clone, Copy, Drop)]
pub struct Write<'a> {
    pub root: u64,
    pub offset: u64,
    pub src: &'a [u8],
}

impl<'a> Change for Write<'a> {
    ghost call = { λ s P R. write_call one P R s.root s.offset s.src.now };

    // In rows that are lent.
    fn in_lent(
        self,
        pool: &mut [u8],
        records: &mut [u8],
        seen: &mut [u8],
        row: &mut [u32],
        heights: &mut [u8],
        firsts: &mut [u32],
    ) -> Result<(), Refusal> {
        let e = meaning::edition_one();
        let Write { root, offset, src } = self;
        call_write::write_call(
            e, pool, records, seen, row, heights, firsts, root, offset, src,
        )
    }

    ghost barred = { λ s P R. no_write P R _ _ _ };
}

// It gets another length.
#[derive(Clone, Copy, Drop)]
pub struct Resize {
    pub root: u64,
    pub len: u64,
}

impl Change for Resize {
    ghost call = { λ s P R. resize_call one P R s.root s.len };

    // In rows that are lent, with room for three drafts.
    fn in_lent(
        self,
        pool: &mut [u8],
        records: &mut [u8],
        seen: &mut [u8],
        row: &mut [u32],
        heights: &mut [u8],
        firsts: &mut [u32],
    ) -> Result<(), Refusal> {
        let e = meaning::edition_one();
        let mut kept = [0u8; 64];
        let mut payload = [0u8; 48];
        let mut scratch = [0u8; 64];
        call_resize::resize_call(
            e,
            pool,
            records,
            seen,
            row,
            heights,
            firsts,
            &mut kept,
            &mut payload,
            &mut scratch,
            self.root,
            self.len,
        )
    }

    ghost barred = { λ s P R. no_resize P R _ _ };
}

// In rows of N places, in a frame of their own.
#[inline(never)]
fn in_places<const N: usize, C: Change>(
    pool: &mut [u8],
    records: &mut [u8],
    change: C,
) -> Result<(), Refusal>
    requires { (slots_in one pool.old ≤ N) × (N ≤ 65536) }
    ensures { Ends one answer_of (C.call change pool.old records.old) pool.old records.old result pool.new records.new }
{
    let mut seen = [0u8; N];
    let mut row = [0u32; N];
    let mut heights = [0u8; N];
    let mut firsts = [0u32; N];
    change.in_lent(
        pool,
        records,
        &mut seen,
        &mut row,
        &mut heights,
        &mut firsts,
    )
}

// In rows of the least size that suffices.
pub fn in_rows<C: Change>(pool: &mut [u8], records: &mut [u8], change: C) -> Result<(), Refusal>
    requires { slots_in one pool.old ≤ 65536 }
    ensures { Ends one answer_of (C.call change pool.old records.old) pool.old records.old result pool.new records.new }
{
    match rows_size::slots_of(pool) {
        0..=FEW => in_places::<FEW, C>(pool, records, change),
        129..=MORE => in_places::<MORE, C>(pool, records, change),
        1025..=8192 => in_places::<8192, C>(pool, records, change),
        _ => in_places::<65536, C>(pool, records, change),
    }
}
