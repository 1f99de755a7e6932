// The calls of a round.
use crate::command::{Call, Changing, Printing, Reading};

// Every reading call that names a root: one byte at offset 0, leaf 0; a head, asked for one byte and then for none.
pub fn reading(root: u64) -> [Call; 5] {
    [
        Call::Read(Reading::Length { root }),
        Call::Read(Reading::Read {
            root,
            offset: 0,
            size: 1,
        }),
        Call::Read(Reading::Find { root, leaf: 0 }),
        Call::Read(Reading::Show { root, leaf: 0 }),
        Call::Read(Reading::Head {
            root,
            sizes: [1, 0, 0, 0],
        }),
    ]
}

// Every reading call that has a range, far beyond it.
pub fn beyond(root: u64) -> [Call; 3] {
    [
        Call::Read(Reading::Read {
            root,
            offset: u64::MAX,
            size: 2,
        }),
        Call::Read(Reading::Find {
            root,
            leaf: u64::MAX,
        }),
        Call::Read(Reading::Show {
            root,
            leaf: u64::MAX,
        }),
    ]
}

// Every changing call that names a root, then the store in hex.
pub fn changing(root: u64) -> [Call; 4] {
    [
        Call::Change(Changing::Write {
            root,
            offset: 0,
            first: 165,
            count: 1,
        }),
        Call::Change(Changing::Resize { root, len: 100 }),
        Call::Change(Changing::Delete { root }),
        Call::Print(Printing::Hex),
    ]
}
