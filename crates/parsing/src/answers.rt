// What reading from a place on gives.
use super::writing::Writing;

// What was read ends before `at`, and is written.
#[derive(Clone, Copy)]
pub(crate) struct Parsed {
    pub(crate) at: usize,
    pub(crate) writing: Writing,
}

// Why reading does not go on.
#[derive(Clone, Copy)]
pub(crate) enum ParseError {
    // No formula goes on at the place.
    NoFormula(usize),
    // The mark before the place is too deep.
    TooDeep(usize),
}

pub(crate) type Parse = Result<Parsed, ParseError>;
