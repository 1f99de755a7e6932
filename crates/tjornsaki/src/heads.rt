// The reading head for C: the pool is lent anew at each asking, and the head is four lent numbers, root, place, length and 1; all 0 of a refused head.
ghost use Rattle.std.specs.Prelude.{◌≡◌};
ghost use Rattle.meaning.specs.Edition.{one};
ghost use Rattle.meaning.specs.Calls.{length_call};
ghost use Rattle.tjornsaki.specs.heads.{head_numbers, open_length, OpenNumbers, NextNumbers};

use meaning::Refusal;

// The numbers of a head that is opened.
fn put_head(head: &mut [u64; 4], root: u64, x: Result<u64, Refusal>)
    ensures { head.new ≡ head_numbers root x }
{
    match x {
        Ok(n) => *head = [root, 0, n, 1],
        Err(_) => *head = [0, 0, 0, 0],
    }
}

// The length of a head whose fourth number is 1; of any other nothing remains.
fn open_length(len: u64, is_open: u64) -> u64
    ensures { result ≡ open_length len is_open }
{
    if is_open == 1 { len } else { 0 }
}

// A head on a blob, at place 0, or the refusal that length gives.
#[unsafe(no_mangle)]
pub extern "C" fn tj_open_head(
    pool: &[u8],
    records: &[u8],
    root: u64,
    head: &mut [u64; 4],
    answer: &mut [u64; 8],
)
    ensures { OpenNumbers (length_call one pool.now records.now root) root answer.new head.new }
{
    let x = store::reads::length(pool, records, root);
    put_head(head, root, x);
    answers::put_value(answer, x)
}

// The next bytes, as many as out takes or as remain; the rest of out stays. The head's place rises by as many.
#[unsafe(no_mangle)]
pub extern "C" fn tj_next(pool: &[u8], head: &mut [u64; 4], out: &mut [u8], answer: &mut [u64; 8])
    ensures { NextNumbers one pool.now head.old out.old answer.new head.new out.new }
{
    let place = head[1];
    let len = open_length(head[2], head[3]);
    let count = store_head::next_bytes(pool, head[0], len, place, out);
    head[1] = place + count;
    answers::put_values(answer, count, 0)
}
