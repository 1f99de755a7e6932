// The calls that read. Pool and records are lent to be read only; the answer is eight numbers.
ghost use Rattle.std.specs.Prelude.{◌≡◌, length};
ghost use Rattle.meaning.specs.Edition.{one};
ghost use Rattle.meaning.specs.Calls.{length_call, read_call, show_call, audit_call};
ghost use Rattle.answers.specs.Numbers.{told_numbers, leaf_numbers, ReadNumbers};

// The length of a blob.
#[unsafe(no_mangle)]
pub extern "C" fn tj_length(pool: &[u8], records: &[u8], root: u64, answer: &mut [u64; 8])
    ensures { answer.new ≡ told_numbers (length_call one pool.now records.now root) }
{
    let x = store::reads::length(pool, records, root);
    answers::put_value(answer, x)
}

// The whole of out is filled from the offset on, or out is left as it is.
#[unsafe(no_mangle)]
pub extern "C" fn tj_read(
    pool: &[u8],
    records: &[u8],
    root: u64,
    offset: u64,
    out: &mut [u8],
    answer: &mut [u64; 8],
)
    ensures { ReadNumbers (read_call one pool.now records.now root offset (length out.old)) answer.new out.old out.new }
{
    let x = store::reads::read(pool, records, root, offset, out);
    answers::put_done(answer, x)
}

// Where a leaf's data bytes start in the pool, and how many they are.
#[unsafe(no_mangle)]
pub extern "C" fn tj_show(pool: &[u8], records: &[u8], root: u64, leaf: u64, answer: &mut [u64; 8])
    ensures { answer.new ≡ leaf_numbers one (show_call one pool.now records.now root leaf) }
{
    let x = store::reads::find_leaf(pool, records, root, leaf);
    answers::put_leaf(answer, x)
}

// The count of live slots, if the whole pool is sound.
#[unsafe(no_mangle)]
pub extern "C" fn tj_audit(pool: &[u8], records: &[u8], answer: &mut [u64; 8])
    ensures { answer.new ≡ told_numbers (audit_call one pool.now records.now) }
{
    let x = store::reads::audit(pool, records);
    answers::put_value(answer, x)
}
