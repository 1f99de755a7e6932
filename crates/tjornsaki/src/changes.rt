// The calls that change the store. A refusal writes nothing but the answer's eight numbers.
ghost use Rattle.meaning.specs.Edition.{one};
ghost use Rattle.meaning.specs.Calls.{create_call, write_call, resize_call, delete_call};
ghost use Rattle.meaning.specs.Answers.{Ends};
ghost use Rattle.answers.specs.Numbers.{told_numbers, change_numbers, WipeNumbers};

// Pool all zeros, each record free at version 0.
#[unsafe(no_mangle)]
pub extern "C" fn tj_wipe(pool: &mut [u8], records: &mut [u8], answer: &mut [u64; 8])
    ensures { WipeNumbers one pool.old records.old answer.new pool.new records.new }
{
    let x = store::changes::wipe(pool, records);
    answers::put_done(answer, x)
}

// A new empty blob, in the lowest usable free slot.
#[unsafe(no_mangle)]
pub extern "C" fn tj_create(pool: &mut [u8], records: &mut [u8], answer: &mut [u64; 8])
    ensures { Ends one told_numbers (create_call one pool.old records.old) pool.old records.old answer.new pool.new records.new }
{
    let x = store::changes::create(pool, records);
    answers::put_value(answer, x)
}

// Bytes put inside the present length, from the offset on.
#[unsafe(no_mangle)]
pub extern "C" fn tj_write(
    pool: &mut [u8],
    records: &mut [u8],
    root: u64,
    offset: u64,
    src: &[u8],
    answer: &mut [u64; 8],
)
    ensures { Ends one change_numbers (write_call one pool.old records.old root offset src.now) pool.old records.old answer.new pool.new records.new }
{
    let x = store::changes::write(pool, records, root, offset, src);
    answers::put_done(answer, x)
}

// A blob gets that length.
#[unsafe(no_mangle)]
pub extern "C" fn tj_resize(
    pool: &mut [u8],
    records: &mut [u8],
    root: u64,
    len: u64,
    answer: &mut [u64; 8],
)
    ensures { Ends one change_numbers (resize_call one pool.old records.old root len) pool.old records.old answer.new pool.new records.new }
{
    let x = store::changes::resize(pool, records, root, len);
    answers::put_done(answer, x)
}

// Every block of a blob goes.
#[unsafe(no_mangle)]
pub extern "C" fn tj_delete(pool: &mut [u8], records: &mut [u8], root: u64, answer: &mut [u64; 8])
    ensures { Ends one change_numbers (delete_call one pool.old records.old root) pool.old records.old answer.new pool.new records.new }
{
    let x = store::changes::delete(pool, records, root);
    answers::put_done(answer, x)
}
