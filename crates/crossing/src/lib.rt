// A table as 1,507 numbers and a row as 128, and back, the table as numbers that can be lent: how they cross to C and Rust.
// A room of the checker: its other crates call it, users do not (they call `exports`).
#![tactic(auto)]

pub mod lending;
pub mod pack;
pub mod rows;
