// The eight numbers of an answer: refusal or 0, named slot, two values, four zeros.
#![tactic(auto)]

ghost use Rattle.std.specs.Prelude.{◌≡◌};
ghost use Rattle.meaning.specs.Refusals.{slot_number};
ghost use Rattle.meaning.specs.Answers.{value_said, done_said, leaf_said};
ghost use Rattle.answers.specs.Numbers.{numbers, value_numbers, refusal_numbers};

use meaning::Refusal;

// The number that stands for no slot.
const NO_SLOT: u64 = 0xFFFF_FFFF_FFFF_FFFF;

// A named slot as a number.
pub fn slot_number(named: Option<u64>) -> u64
    ensures { result ≡ slot_number named }
{
    named.unwrap_or(NO_SLOT)
}

// The numbers of a call that is done.
pub fn put_values(answer: &mut [u64; 8], first: u64, second: u64)
    ensures { answer.new ≡ value_numbers first second }
{
    *answer = [0, NO_SLOT, first, second, 0, 0, 0, 0];
}

// The numbers of a refusal.
fn put_refusal(answer: &mut [u64; 8], r: Refusal)
    ensures { answer.new ≡ refusal_numbers r }
{
    *answer = [r.reason.number(), slot_number(r.named), 0, 0, 0, 0, 0, 0];
}

// The numbers of a call that answers a value: length, audit and create.
pub fn put_value(answer: &mut [u64; 8], x: Result<u64, Refusal>)
    ensures { answer.new ≡ numbers (value_said x) }
{
    match x {
        Ok(n) => put_values(answer, n, 0),
        Err(r) => put_refusal(answer, r),
    }
}

// The numbers of a call that answers no value: read, wipe, write, resize and delete.
pub fn put_done(answer: &mut [u64; 8], x: Result<(), Refusal>)
    ensures { answer.new ≡ numbers (done_said x) }
{
    match x {
        Ok(()) => put_values(answer, 0, 0),
        Err(r) => put_refusal(answer, r),
    }
}

// The numbers of show: where the leaf's data bytes start, and how many they are.
pub fn put_leaf(answer: &mut [u64; 8], x: Result<(usize, usize), Refusal>)
    ensures { answer.new ≡ numbers (leaf_said x) }
{
    match x {
        Ok((start, count)) => put_values(answer, start as u64, count as u64),
        Err(r) => put_refusal(answer, r),
    }
}
