// Why a formula's text is refused.
ghost use Rattle.std.specs.Prelude.{◌≡◌};
ghost use Rattle.parsing.specs.Refusals.{refusal_number, refusal_place};

// The questions of document 02 that a formula's text gets a no from.
#[derive(Clone, Copy, PartialEq, Eq)]
pub enum FormulaRefusal {
    // The text is longer than 4,096 bytes.
    TooLong,
    // No formula can go on with the byte at the place; the text's length if it stops short.
    NoFormula(u16),
    // Too many marks are open at once.
    TooDeep,
    // The sheet would pass a limit.
    TooLarge,
    // A path mark stands within an ahead or back step.
    PathInStep,
}

impl FormulaRefusal {
    // The question's number.
    pub fn number(self) -> u8
        ensures { result ≡ refusal_number self }
    {
        match self {
            FormulaRefusal::TooLong => 50,
            FormulaRefusal::NoFormula(_) => 51,
            FormulaRefusal::TooDeep => 52,
            FormulaRefusal::TooLarge => 53,
            FormulaRefusal::PathInStep => 54,
        }
    }

    // The place that it names, 0 where it names none.
    pub fn place(self) -> u16
        ensures { result ≡ refusal_place self }
    {
        match self {
            FormulaRefusal::NoFormula(place) => place,
            _ => 0,
        }
    }
}
