// What a slot becomes in a changing call, planned without writing.
ghost use Rattle.std.specs.Prelude.{◌≡◌, ◌≤◌, eqb, length};
ghost use Rattle.meaning.specs.Lists.{pick, both};
ghost use Rattle.meaning.specs.Bytes.{height_of, count_of};
ghost use Rattle.plan_slot.specs.turn.{turns};

use crate::payload::Drawn;
use base_slot::fields;

// A slot stays as it is; or its block goes; or it is newly taken, or renewed, by a block of that height and count, whose payload is lent beside.
#[derive(Clone, Copy, Drop)]
pub enum Turn {
    Stays,
    Goes,
    Takes(Drawn),
    Renews(Drawn),
}

// A live block stays as it is if its height and its count do. That its payload does then too is the planner's to know.
pub fn renewed(block: &[u8], drawn: Drawn) -> Turn
    requires { 16 ≤ length block.now }
    ensures { result ≡ pick (both (eqb drawn.height (height_of block.now)) (eqb drawn.count (count_of block.now))) Turn.Stays (Turn.Renews drawn) }
{
    let held = Drawn {
        height: fields::height_of(block) as u8,
        count: fields::count_of(block) as u8,
    };
    if drawn == held {
        Turn::Stays
    } else {
        Turn::Renews(drawn)
    }
}

// How many slots a turn changes: one, or none.
pub fn changes(turn: Turn) -> usize
    ensures { (result ≡ turns turn) × (result ≤ 1) }
{
    match turn {
        Turn::Stays => 0,
        Turn::Goes => 1,
        Turn::Takes(_) => 1,
        Turn::Renews(_) => 1,
    }
}
