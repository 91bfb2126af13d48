// Formulas and paths as people write them: what they mean, how they are written, and the sheet that a formula makes. Definitions and theorems; of code the two limits.
#![tactic(auto)]

// A formula's text has at most so many bytes.
pub const FORMULA: usize = 4096;

// At most so many marks are open at once.
pub const DEPTH: usize = 16;
