// Plays a script of test vectors over the changing calls: its input lays stores out byte by byte and names calls. Each call is one
// printed line; a store in hex is one line a slot. The file stdin is the script, with its commands explained at its top. The file
// stdout was written by the plain store of host/reference, which shares no code with this one.
#![tactic(auto)]

use vectors_play::player::{Plays, play_input};

// The script is the input.
fn main() {
    play_input(Plays::All);
}
