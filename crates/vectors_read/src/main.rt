// Plays a script of test vectors: its input lays stores out byte by byte and names calls. Each call is one printed line. The file
// stdin is the script, with its commands explained at its top. The file stdout was written by hand from document 01, but for its lines
// of heads: the plain store of host/reference wrote those, which shares no code with this one.
#![tactic(auto)]

use vectors_play::player::{Plays, play_input};

// The script is the input.
fn main() {
    play_input(Plays::Reads);
}
