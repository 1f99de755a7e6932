// What one slot becomes in a changing call, and the one function that carries it out.
#![tactic(auto)]

pub mod carry;
pub mod change;
pub mod keep;
pub mod payload;
pub mod turn;
