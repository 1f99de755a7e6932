// In which rows does a changing call run? In those of the least size that suffices, chosen as for a reading call. Delete, write and resize change one blob
// and are lent the same rows: they are three changes of one trait, and one function here runs any of them.
#![tactic(auto)]

pub mod change;
pub mod create;
