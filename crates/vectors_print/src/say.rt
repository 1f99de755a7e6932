// The parts of a printed line that follow its call: the refusal's number (0 for none), its slot (- for none), values.
ghost use Rattle.std.specs.Prelude.{OnOk};
ghost use Rattle.std.specs.Io.KnownBytes.{Appends};
ghost use Rattle.vectors_print.specs.Text.{passed_text, refusal_text, refused_text};

use crate::out::Out;
use meaning::Refusal;
use std::fmt;
use std::io::{self, Write};

// Bytes in hex, between brackets.
#[derive(Clone, Copy, Drop)]
pub struct Hex<'a>(pub &'a [u8]);

impl fmt::Display for Hex<'_> {
    fn fmt<W: fmt::Write>(&self, f: &mut fmt::Formatter<W>) -> fmt::Result {
        write!(f, "[")?;
        for byte in self.0 {
            write!(f, "{byte:02x}")?;
        }
        write!(f, "]")
    }
}

// A call that is not refused.
pub fn passed<W: Write>(out: &mut W) -> io::Result<()>
    ensures bytes { OnOk result (Appends (W.contents out.old) (W.contents out.new) passed_text) }
{
    write!(out, " 0 -")
}

// A refusal's number and the slot that it names.
#[tactic(auto, unfolding(crate::specs::Text::refusal_text))]
pub fn refusal<W: Write>(out: &mut W, number: u64, slot: Option<u64>) -> io::Result<()>
    ensures bytes { OnOk result (Appends (W.contents out.old) (W.contents out.new) (refusal_text number slot)) }
{
    match slot {
        None => write!(out, " {number} -"),
        Some(slot) => write!(out, " {number} {slot}"),
    }
}

// A call that is refused.
pub fn refused<W: Write>(out: &mut W, r: Refusal) -> io::Result<()>
    ensures bytes { OnOk result (Appends (W.contents out.old) (W.contents out.new) (refused_text r)) }
{
    refusal(out, r.reason.number(), r.named)
}

// A call that is not refused, on standard output.
pub fn print_passed(out: &mut Out) {
    out.print(" 0 -");
}

// A refusal's number and the slot that it names, on standard output.
pub fn print_refusal(out: &mut Out, number: u64, slot: Option<u64>) {
    match slot {
        None => out.print(format_args!(" {number} -")),
        Some(slot) => out.print(format_args!(" {number} {slot}")),
    }
}

// A call that is refused, on standard output.
pub fn print_refused(out: &mut Out, r: Refusal) {
    print_refusal(out, r.reason.number(), r.named);
}
