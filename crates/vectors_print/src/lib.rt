// Each answer, and a whole store, printed; and where it is printed to. Each is there twice: to any writer, whose failure is answered, and by a name with
// print_ to standard output, which the programs use and which cannot fail. A writer of std's answers a failure by its type.
#![tactic(auto)]

pub mod answers;
pub mod dump;
pub mod out;
pub mod say;
#[cfg(test)]
mod tests;
