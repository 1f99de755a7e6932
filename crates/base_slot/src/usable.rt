// Usable free slots: whether one is, the lowest, how many there are, and the list of them.
ghost use Rattle.std.specs.Prelude.{◌≡◌, ◌+◌, ◌*◌, ◌^◌, ◌≤◌, ◌<◌, length, get_or, slice_get, take};
ghost use Rattle.meaning.specs.Lists.{pick, bytes};
ghost use Rattle.meaning.specs.Bytes.{usable_slot};
ghost use Rattle.base_slot.specs.usable.{usable_from};

use crate::{record, slot};

// Whether a slot is free and its version is below the last.
pub fn is_usable(records: &[u8], slot: usize) -> bool
    requires { 12 * slot + 12 ≤ length records.now }
    ensures { result ≡ usable_slot records.now slot }
{
    let r = slot::record_of(records, slot);
    record::state_of(r) == 0 && record::version_of(r) < u64::MAX
}

// The lowest usable slot of n, if there is one.
pub fn lowest(records: &[u8], n: usize) -> Option<usize>
    requires { length records.now ≡ 12 * n }
    ensures { result ≡ slice_get (usable_from records.now 0 n) 0 }
{
    (0..n).find(|i| is_usable(records, *i))
}

// One if it holds, else none.
pub fn one_if(t: bool) -> usize
    ensures { (result ≡ pick t 1 0) × (result ≤ 1) }
{
    usize::from(t)
}

// How many of n slots are usable. Each adds one or none, with no branch: a filter counted takes twice as long.
pub fn count(records: &[u8], n: usize) -> usize
    requires { length records.now ≡ 12 * n }
    ensures { result ≡ length (usable_from records.now 0 n) }
{
    let mut found = 0;
    for i in 0..n {
        found += one_if(is_usable(records, i));
    }
    found
}

// The usable slots of n, rising, in a lent row; answers how many there are.
pub fn list(records: &[u8], row: &mut [u32], n: usize) -> usize
    requires { (length records.now ≡ 12 * n) × (length row.old ≡ n) × (n ≤ 2 ^ 32) }
    ensures value { (result ≡ length (usable_from records.now 0 n)) × (result ≤ n) }
    ensures row_after { take result row.new ≡ usable_from records.now 0 n }
{
    let mut found = 0;
    for i in 0..n {
        if is_usable(records, i) {
            row[found] = i as u32;
            found += 1;
        }
    }
    found
}

// The k-th usable slot, of the list of them; of none, 0, whose four bytes are those of the definitions' number past every pool.
pub fn nth(free: &[u32], k: usize) -> u32
    ensures { bytes 4 result ≡ bytes 4 (get_or free.now k (2 ^ 32)) }
{
    if k < free.len() { free[k] } else { 0 }
}
