// The types that document 01's definitions and the code share: an edition, and why a call is refused. A call answers its value or a refusal.
#![tactic(auto)]

ghost use Rattle.std.specs.Prelude.{◌≡◌};
ghost use Rattle.meaning.specs.Edition.{one};
ghost use Rattle.meaning.specs.Refusals.{number_of, refusal_of, at, nowhere};

// The numbers that an edition fixes.
#[derive(Clone, Copy, Drop)]
pub struct Edition {
    // A block's first bytes.
    pub mark: [u8; 2],
    // The bytes of a block.
    pub size: usize,
    // The bytes of its payload: what a leaf holds.
    pub leaf: usize,
    // The children that an inner block holds, of four bytes each.
    pub fan: usize,
    // A root's greatest height.
    pub top: usize,
    // A pool's most slots.
    pub most: usize,
}

// Edition one: document 01's numbers, with the height and the slots of request W-203.
pub fn edition_one() -> Edition
    ensures { result ≡ one }
{
    Edition {
        mark: [0x4C, 0x31],
        size: 64,
        leaf: 48,
        fan: 12,
        top: 5,
        most: 65536,
    }
}

// Why a call is refused, in the order of document 01's table.
#[derive(Clone, Copy, Debug, Drop, Eq, PartialEq)]
pub enum Reason {
    // Pool or records are not so long as a number of slots.
    WrongLengths,
    // A record breaks its layout.
    BadRecord,
    // The named root is none.
    NotARoot,
    // A block has another mark.
    Spoiled,
    // A block has another slot's number.
    Moved,
    // A block is older than its record.
    RolledBack,
    // A block is newer than its record.
    Ahead,
    // A block is not as its place in the blob asks.
    WrongShape,
    // A slot is free and its block isn't empty.
    Reintroduced,
    // Offset and size, or the leaf, lie past the end.
    OutOfRange,
    // Too few free slots are usable.
    NoRoom,
    // A block of the blob is at the last version.
    WornOut,
}

impl Reason {
    // Document 01's number.
    #[tactic(auto, unfolding(crate::specs::Refusals::number_of))]
    pub fn number(self) -> u64
        ensures { result ≡ number_of self }
    {
        match self {
            Reason::WrongLengths => 1,
            Reason::BadRecord => 2,
            Reason::NotARoot => 3,
            Reason::Spoiled => 4,
            Reason::Moved => 5,
            Reason::RolledBack => 6,
            Reason::Ahead => 7,
            Reason::WrongShape => 8,
            Reason::Reintroduced => 9,
            Reason::OutOfRange => 10,
            Reason::NoRoom => 11,
            Reason::WornOut => 12,
        }
    }
}

// A refusal: why, and the slot that it names, if it names one.
#[derive(Clone, Copy, Debug, Drop, Eq, PartialEq)]
pub struct Refusal {
    pub reason: Reason,
    pub named: Option<u64>,
}

// The one place where a refusal is made.
pub fn refuse(reason: Reason, named: Option<u64>) -> Refusal
    ensures { result ≡ refusal_of reason named }
{
    Refusal { reason, named }
}

// A refusal that names a slot.
pub fn refuse_at(reason: Reason, slot: usize) -> Refusal
    ensures { result ≡ at reason slot }
{
    refuse(reason, Some(slot as u64))
}

// A refusal that names no slot.
pub fn refuse_nowhere(reason: Reason) -> Refusal
    ensures { result ≡ nowhere reason }
{
    refuse(reason, None)
}

// A block is visited as a root, or as a child of its parent.
#[derive(Clone, Copy, Drop)]
pub enum Role {
    Root,
    Child(usize),
}
