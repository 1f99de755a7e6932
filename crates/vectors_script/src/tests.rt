// A command by itself, in words; and blocks and records in slices longer than any that the programs have.
use crate::block;
use crate::command::{Call, Command, Layout, Reading, Round};

#[test]
fn a_command_is_a_letter_and_numbers(rt: HostRuntime) {
    let read = Command::parse("R 3 5 7");
    let same = matches!(
        read,
        Some(Command::Call(Call::Read(Reading::Read {
            root: 3,
            offset: 5,
            size: 7,
        })))
    );
    assert!(rt; same);
    let inner = Command::parse(" \ti 1 2\t3  4 5 6\n");
    let same = matches!(
        inner,
        Some(Command::Lay(Layout::Inner {
            slot: 1,
            height: 2,
            count: 3,
            version: 4,
            first: 5,
        }))
    );
    assert!(rt; same);
}

#[test]
fn numbers_that_are_none_are_zero(rt: HostRuntime) {
    for text in ["E", "E x", "E -1", "E 18446744073709551616"] {
        let same = matches!(
            Command::parse(text),
            Some(Command::Round(Round::ReadingAndAudit(0)))
        );
        assert!(rt; same, "at {text}");
    }
}

#[test]
fn other_words_are_no_command(rt: HostRuntime) {
    for text in ["", "  ", "EE 0", "0 E", "# E 0", "E0"] {
        assert!(rt; Command::parse(text).is_none(), "at {text}");
    }
}

#[test]
fn blocks_lie_at_their_slots(rt: HostRuntime) {
    let mut pool = [0u8; 70400];
    block::leaf(&mut pool, 1 << 58, 3, 2, 5);
    block::inner(&mut pool, u64::MAX, 1, 2, 5, 1);
    assert!(rt; pool.iter().all(|byte| *byte == 0));
    block::leaf(&mut pool, 1028, 3, 2, 5);
    assert_eq!(rt; pool.iter().position(|byte| *byte != 0), Some(64 * 1028));
    block::inner(&mut pool, 1026, 1, 2, 5, 1);
    assert_eq!(rt; pool.iter().position(|byte| *byte != 0), Some(64 * 1026));
    let mut records = [0u8; 13200];
    block::record(&mut records, 1028, 1, 5);
    assert_eq!(rt; records.iter().position(|byte| *byte != 0), Some(12 * 1028));
    for slot in [1100, u64::MAX] {
        block::record(&mut records, slot, 1, 5);
    }
    assert_eq!(rt; records.iter().position(|byte| *byte != 0), Some(12 * 1028));
    assert_eq!(rt; records.iter().filter(|byte| **byte != 0).count(), 4);
}
