// Each call of a script, run once and printed; and a whole script played. Each is there twice, as in `vectors_print`: to any writer, and by a name with
// print_ to standard output; `player::play` plays between a runtime's input and output, `player::play_input` is what the programs do.
#![tactic(auto)]

pub mod changes;
mod kit;
pub mod pieces;
pub mod player;
pub mod reads;
#[cfg(test)]
mod tests;
mod text_player;
