// For the programs of test vectors: each call's answer, printed.
ghost use Rattle.std.specs.Prelude.{OnOk};
ghost use Rattle.std.specs.Io.KnownBytes.{Appends};
ghost use Rattle.vectors_print.specs.Text.{value_text, done_text, leaf_text};

use crate::out::Out;
use crate::say;
use meaning::Refusal;
use std::io::{self, Write};

// A call's value, or its refusal: a length, how many slots are live, or a new blob's root.
#[tactic(auto, unfolding(crate::specs::Text::value_text))]
pub fn value<W: Write>(out: &mut W, answer: Result<u64, Refusal>) -> io::Result<()>
    ensures bytes { OnOk result (Appends (W.contents out.old) (W.contents out.new) (value_text answer)) }
{
    match answer {
        Ok(n) => write!(out, " 0 - {n}"),
        Err(r) => say::refused(out, r),
    }
}

// How a call without a value ends. Read's output follows it on the line.
#[tactic(auto, unfolding(crate::specs::Text::done_text))]
pub fn done<W: Write>(out: &mut W, answer: Result<(), Refusal>) -> io::Result<()>
    ensures bytes { OnOk result (Appends (W.contents out.old) (W.contents out.new) (done_text answer)) }
{
    match answer {
        Ok(()) => say::passed(out),
        Err(r) => say::refused(out, r),
    }
}

// Where a leaf starts in the pool, and how many bytes it has.
#[tactic(auto, unfolding(crate::specs::Text::leaf_text))]
pub fn leaf<W: Write>(out: &mut W, answer: Result<(usize, usize), Refusal>) -> io::Result<()>
    ensures bytes { OnOk result (Appends (W.contents out.old) (W.contents out.new) (leaf_text answer)) }
{
    match answer {
        Ok((start, count)) => write!(out, " 0 - {start} {count}"),
        Err(r) => say::refused(out, r),
    }
}

// The same of a value, on standard output.
pub fn print_value(out: &mut Out, answer: Result<u64, Refusal>) {
    match answer {
        Ok(n) => out.print(format_args!(" 0 - {n}")),
        Err(r) => say::print_refused(out, r),
    }
}

// The same of a call without a value, on standard output.
pub fn print_done(out: &mut Out, answer: Result<(), Refusal>) {
    match answer {
        Ok(()) => say::print_passed(out),
        Err(r) => say::print_refused(out, r),
    }
}

// The same of a leaf, on standard output.
pub fn print_leaf(out: &mut Out, answer: Result<(usize, usize), Refusal>) {
    match answer {
        Ok((start, count)) => out.print(format_args!(" 0 - {start} {count}")),
        Err(r) => say::print_refused(out, r),
    }
}
