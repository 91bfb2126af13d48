// A table as numbers, so that it can be lent: a struct goes by value, and a table handed on from function to function is copied each time.
// A room of the checker: its other crates call it, users do not.
#![tactic(auto)]

pub mod pieces;
pub mod places;
pub mod writing;
