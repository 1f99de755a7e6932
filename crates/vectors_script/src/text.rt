// Reading a script, byte by byte: a name is one byte, and up to five numbers follow it. A byte that names nothing has numbers too, which stand for nothing.
use crate::command::Command;

// The text up to its first line end.
pub fn line(text: &[u8]) -> &[u8] {
    text.split(|byte| *byte == b'\n').next().unwrap_or(text)
}

// The text from its first line end on.
fn line_end(text: &[u8]) -> &[u8] {
    let end = line(text).len();
    text.get(end..).unwrap_or(&[])
}

// One decimal digit more, while the number has room: ten times the number has it, and what the digit brings past 2^64 - 1 counts from 0 again.
fn longer(value: u64, digit: u8) -> u64 {
    if value <= u64::MAX / 10 {
        (10 * value).wrapping_add(u64::from(digit % 16))
    } else {
        value
    }
}

// The next number, after spaces, or 0; and the text behind it.
fn number(text: &[u8]) -> (u64, &[u8]) {
    let spaces = text
        .iter()
        .position(|byte| *byte != b' ')
        .unwrap_or(text.len());
    let text = text.get(spaces..).unwrap_or(&[]);
    let digits = text
        .iter()
        .position(|byte| !byte.is_ascii_digit())
        .unwrap_or(text.len());
    let (digits, rest) = text.split_at_checked(digits).unwrap_or((text, &[]));
    let value = digits.iter().fold(0, |value, digit| longer(value, *digit));
    (value, rest)
}

// The next five numbers, 0 for those that are not there, and the text behind them.
fn numbers(text: &[u8]) -> ([u64; 5], &[u8]) {
    let mut numbers = [0u64; 5];
    let mut rest = text;
    for place in numbers.iter_mut() {
        let (value, behind) = number(rest);
        *place = value;
        rest = behind;
    }
    (numbers, rest)
}

// What a script says at a place: what the next calls' lines begin with, or a command. Comments say nothing, nor does what names no command.
#[derive(Clone, Copy, Drop)]
pub enum Step<'s> {
    Label(&'s [u8]),
    Command(Command),
    Nothing,
}

// What the text says at its start, and the text behind that; nothing of no text. Labels and comments take a line, and a label starts two bytes after
// its command.
pub fn next(text: &[u8]) -> Option<(Step<'_>, &[u8])> {
    let (name, after) = text.split_first()?;
    match *name {
        b'=' => Some((
            Step::Label(line(after.get(1..).unwrap_or(&[]))),
            line_end(after),
        )),
        b'#' => Some((Step::Nothing, line_end(after))),
        name => {
            let (numbers, rest) = numbers(after);
            match Command::named(name, numbers) {
                Some(command) => Some((Step::Command(command), rest)),
                None => Some((Step::Nothing, rest)),
            }
        }
    }
}
