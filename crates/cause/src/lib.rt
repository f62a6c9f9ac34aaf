// The causes for turning a call away, each with its number.
#![tactic(auto)]

ghost use Rattle.std.specs.Prelude.{◌≡◌};
ghost use Rattle.cause.specs.Causes.{cause_number, number_of};

#[derive(Clone, Copy, PartialEq, Eq)]
pub enum Cause {
    // A layout above 8.
    Layout = 1,
    // A constellation or a gain code above 3.
    Codes = 2,
    // No data symbols, or more than 1,023.
    Symbols = 3,
    // The grid has not 2 × ng × nc numbers.
    Grid = 4,
    // Variances of another length than the burst's; for `fde`, lists of unequal length.
    Lengths = 5,
    // A lent list is too short.
    Room = 6,
    // A number that is not finite, or out of its range.
    Numbers = 7,
    // A header that fits neither check.
    Check = 8,
    // A data header without data symbols.
    NoSymbols = 9,
    // A header's bit other than 0 and 1, or fields that are not accepted together.
    Fields = 10,
    // A carrier or a symbol beyond the grid.
    Place = 11,
    // A record too short, too long, padded with a 1, or not of the length its fields give.
    Record = 12,
}

impl From<Cause> for u32 {
    ghost from_gives = { λ cause number. number ≡ cause_number cause };

    fn from(cause: Cause) -> u32 {
        cause as u32
    }
}

// What a C function returns: the cause's number, or 0 for an answer.
pub fn number<T>(answer: &Result<T, Cause>) -> u32
    ensures { result ≡ number_of answer.now }
{
    match answer {
        Ok(_) => 0,
        Err(cause) => u32::from(*cause),
    }
}
