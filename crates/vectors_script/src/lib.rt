// A script's commands, and the stores that it lays out from document 01.
#![tactic(auto)]

pub mod block;
pub mod command;
pub mod rounds;
pub mod store;
#[cfg(test)]
mod tests;
pub mod text;
