// Why an escape is refused (change request 1): the crate's eight texts behind 13, in the paper's order. Only the escape reader names one.
ghost use Rattle.std.specs.Prelude.{◌≡◌};
ghost use Rattle.text.specs.Refusals.{reason_of};

// Each stands for one text of the crate's `InvalidEscape`.
#[derive(Clone, Copy)]
pub enum EscapeReason {
    // "Non-hex digit found"
    DigitNotHex = 1,
    // "Unknown escape character"
    UnknownLetter = 2,
    // "Not a valid byte-escaped Unicode character"
    NotByteEscaped = 3,
    // "Missing { in Unicode escape"
    MissingOpenBrace = 4,
    // "Expected 1-6 digits, got 0 digits in Unicode escape"
    NoDigits = 5,
    // "No } at the end of Unicode escape"
    NoClosingBrace = 6,
    // "Not a valid Unicode-escaped character"
    NotACharacter = 7,
    // "Unexpected Unicode escape in byte literal"
    UnicodeInByteLiteral = 8,
}

impl EscapeReason {
    // Its number, 1 to 8.
    pub fn number(self) -> u8
        ensures { result ≡ reason_of self }
    {
        self as u8
    }
}
