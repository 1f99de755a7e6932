// A script's commands: a letter and up to five numbers stand for each.
use std::fmt;

// A call that reads the store. A head is asked for pieces of four sizes.
#[derive(Clone, Copy, Drop)]
pub enum Reading {
    Length { root: u64 },
    Read { root: u64, offset: u64, size: u64 },
    Find { root: u64, leaf: u64 },
    Show { root: u64, leaf: u64 },
    Head { root: u64, sizes: [u64; 4] },
    Audit,
}

// A call that changes the store.
#[derive(Clone, Copy, Drop)]
pub enum Changing {
    Wipe,
    Create,
    Write {
        root: u64,
        offset: u64,
        first: u64,
        count: u64,
    },
    Resize {
        root: u64,
        len: u64,
    },
    Delete {
        root: u64,
    },
}

// What is printed of a store: every slot, one, or the sums of its bytes.
#[derive(Clone, Copy, Drop)]
pub enum Printing {
    Hex,
    Slot(u64),
    Sums,
}

// What is run over a store, and printed.
#[derive(Clone, Copy, Drop)]
pub enum Call {
    Read(Reading),
    Change(Changing),
    Print(Printing),
}

// Several calls, of which most name one root.
#[derive(Clone, Copy, Drop)]
pub enum Round {
    Beyond(u64),
    Reading(u64),
    ReadingAndAudit(u64),
    Changing(u64),
    CreateAndChanging(u64),
}

// What is laid out from document 01: a whole store, blocks, a record or a byte.
#[derive(Clone, Copy, Drop)]
pub enum Layout {
    Wiped {
        pool: u64,
        records: u64,
    },
    Pair,
    Leaf {
        place: u64,
        own: u64,
        count: u64,
        version: u64,
    },
    Inner {
        slot: u64,
        height: u64,
        count: u64,
        version: u64,
        first: u64,
    },
    Leaves {
        first: u64,
        end: u64,
    },
    Record {
        slot: u64,
        state: u64,
        version: u64,
    },
    PoolByte {
        at: u64,
        value: u64,
    },
    RecordsByte {
        at: u64,
        value: u64,
    },
}

// What a script says: lay something out, or run calls over what was laid out.
#[derive(Clone, Copy, Drop)]
pub enum Command {
    Lay(Layout),
    Call(Call),
    Round(Round),
}

impl Reading {
    // The reading call of that letter.
    fn named(name: u8, numbers: [u64; 5]) -> Option<Reading> {
        let [root, b, c, d, e] = numbers;
        match name {
            b'L' => Some(Reading::Length { root }),
            b'R' => Some(Reading::Read {
                root,
                offset: b,
                size: c,
            }),
            b'F' => Some(Reading::Find { root, leaf: b }),
            b'S' => Some(Reading::Show { root, leaf: b }),
            b'P' => Some(Reading::Head {
                root,
                sizes: [b, c, d, e],
            }),
            b'A' => Some(Reading::Audit),
            _ => None,
        }
    }
}

impl Changing {
    // The changing call of that letter.
    fn named(name: u8, numbers: [u64; 5]) -> Option<Changing> {
        let [root, b, c, d, _] = numbers;
        match name {
            b'O' => Some(Changing::Wipe),
            b'N' => Some(Changing::Create),
            b'W' => Some(Changing::Write {
                root,
                offset: b,
                first: c,
                count: d,
            }),
            b'Z' => Some(Changing::Resize { root, len: b }),
            b'D' => Some(Changing::Delete { root }),
            _ => None,
        }
    }
}

impl Printing {
    // What that letter prints.
    fn named(name: u8, numbers: [u64; 5]) -> Option<Printing> {
        let [slot, _, _, _, _] = numbers;
        match name {
            b'H' => Some(Printing::Hex),
            b'T' => Some(Printing::Slot(slot)),
            b'G' => Some(Printing::Sums),
            _ => None,
        }
    }
}

impl Round {
    // The round of that letter.
    fn named(name: u8, numbers: [u64; 5]) -> Option<Round> {
        let [root, _, _, _, _] = numbers;
        match name {
            b'B' => Some(Round::Beyond(root)),
            b'C' => Some(Round::Reading(root)),
            b'E' => Some(Round::ReadingAndAudit(root)),
            b'Y' => Some(Round::Changing(root)),
            b'X' => Some(Round::CreateAndChanging(root)),
            _ => None,
        }
    }
}

impl Layout {
    // What that letter lays out.
    fn named(name: u8, numbers: [u64; 5]) -> Option<Layout> {
        let [a, b, c, d, e] = numbers;
        match name {
            b'n' => Some(Layout::Wiped {
                pool: a,
                records: b,
            }),
            b'w' => Some(Layout::Pair),
            b'l' => Some(Layout::Leaf {
                place: a,
                own: b,
                count: c,
                version: d,
            }),
            b'i' => Some(Layout::Inner {
                slot: a,
                height: b,
                count: c,
                version: d,
                first: e,
            }),
            b'v' => Some(Layout::Leaves { first: a, end: b }),
            b'k' => Some(Layout::Record {
                slot: a,
                state: b,
                version: c,
            }),
            b'p' => Some(Layout::PoolByte { at: a, value: b }),
            b'q' => Some(Layout::RecordsByte { at: a, value: b }),
            _ => None,
        }
    }
}

impl Command {
    // The command of that letter, if there is one.
    pub fn named(name: u8, numbers: [u64; 5]) -> Option<Command> {
        if let Some(layout) = Layout::named(name, numbers) {
            return Some(Command::Lay(layout));
        }
        if let Some(call) = Reading::named(name, numbers) {
            return Some(Command::Call(Call::Read(call)));
        }
        if let Some(call) = Changing::named(name, numbers) {
            return Some(Command::Call(Call::Change(call)));
        }
        if let Some(call) = Printing::named(name, numbers) {
            return Some(Command::Call(Call::Print(call)));
        }
        Round::named(name, numbers).map(Command::Round)
    }

    // A command by itself, in words between any spaces: its letter, and its numbers, 0 for those that are not there or not numbers. The programs read
    // theirs by `text::next`.
    pub fn parse(text: &str) -> Option<Command> {
        let mut words = text.split_ascii_whitespace();
        let name = words.next()?;
        let mut numbers = [0u64; 5];
        for (number, word) in numbers.iter_mut().zip(words) {
            *number = word.parse().unwrap_or(0);
        }
        match name.as_bytes() {
            [letter] => Command::named(*letter, numbers),
            _ => None,
        }
    }
}

// The call and its numbers, as a line has them.
impl fmt::Display for Reading {
    fn fmt<W: fmt::Write>(&self, f: &mut fmt::Formatter<W>) -> fmt::Result {
        match *self {
            Reading::Length { root } => write!(f, "length {root}"),
            Reading::Read { root, offset, size } => write!(f, "read {root} {offset} {size}"),
            Reading::Find { root, leaf } => write!(f, "find {root} {leaf}"),
            Reading::Show { root, leaf } => write!(f, "show {root} {leaf}"),
            Reading::Head { root, sizes } => {
                let [a, b, c, d] = sizes;
                write!(f, "head {root} {a} {b} {c} {d}")
            }
            Reading::Audit => write!(f, "audit"),
        }
    }
}

// The call and its numbers, as a line has them.
impl fmt::Display for Changing {
    fn fmt<W: fmt::Write>(&self, f: &mut fmt::Formatter<W>) -> fmt::Result {
        match *self {
            Changing::Wipe => write!(f, "wipe"),
            Changing::Create => write!(f, "create"),
            Changing::Write {
                root,
                offset,
                first,
                count,
            } => write!(f, "write {root} {offset} {first} {count}"),
            Changing::Resize { root, len } => write!(f, "resize {root} {len}"),
            Changing::Delete { root } => write!(f, "delete {root}"),
        }
    }
}
