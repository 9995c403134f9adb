// Refusals: why a call is refused, in which input, and where.
ghost use Rattle.std.specs.Prelude.{◌≡◌};
ghost use Rattle.refusals.specs.Refusals.{ground_number, input_number, fault_at, refusal_in};

// Why a call is refused. Each ground has a number that is printed and never changes.
#[derive(Clone, Copy, Debug, PartialEq, Eq)]
pub enum Ground {
    // A length or the caution period is above its maximum.
    Limit = 1,
    // The length of the roll or of a table is not the one the register was made with, or a list line points past the entries.
    Memory = 2,
    // A list or a roll exceeds 65,535 octets.
    TooLong = 3,
    // The roll has a seventeenth name.
    RollFull = 4,
    // Octets break the rules for items, or an item runs past the item around it.
    Malformed = 5,
    // An item is missing, extra or not the one laid down.
    Unexpected = 6,
    // A time is not a moment, or a number given as a moment is past the last one.
    NotATime = 7,
    // The issuer is not on the roll.
    UnknownIssuer = 8,
    // A reason code that is not admitted.
    WrongReason = 9,
    // A critical extension that is not read.
    Critical = 10,
    // The verifier does not hold the list genuine.
    NotGenuine = 11,
    // A taken list of that issuer has the same signed block.
    Duplicate = 12,
    // The list table or the entry table runs out.
    TableFull = 13,
    // A serial is not the content of a serial, or notBefore lies after notAfter.
    BadArgument = 14,
    // The output is too short.
    OutputShort = 15,
    // No line is free or a span is open already; or none is open, or its end lies before its start.
    Span = 16,
}

impl From<Ground> for u8 {
    ghost from_gives = { λ ground n. n ≡ ground_number ground };

    fn from(ground: Ground) -> u8 {
        ground as u8
    }
}

impl Ground {
    // The fault of this ground at an offset.
    pub fn at(self, offset: usize) -> Fault
        ensures { result ≡ fault_at self offset }
    {
        Fault {
            ground: self,
            offset,
        }
    }
}

// The input that a refusal speaks of. Neither is a case, printed as number 0 like the others.
#[derive(Clone, Copy, Debug, PartialEq, Eq)]
pub enum Input {
    Neither = 0,
    List = 1,
    // The roll, or the one name that a written list is given.
    Roll = 2,
}

impl From<Input> for u8 {
    ghost from_gives = { λ input n. n ≡ input_number input };

    fn from(input: Input) -> u8 {
        input as u8
    }
}

// What a refused call answers.
#[derive(Clone, Copy, Debug, PartialEq, Eq)]
pub struct Refusal {
    pub ground: Ground,
    pub input: Input,
    pub offset: usize,
}

// Why reading stopped, and at which offset of the octets that are read.
#[derive(Clone, Copy, Debug, PartialEq, Eq)]
pub struct Fault {
    pub ground: Ground,
    pub offset: usize,
}

impl Fault {
    // The fault as the refusal of a call that was given the octets as this input.
    pub fn within(self, input: Input) -> Refusal
        ensures { result ≡ refusal_in input self }
    {
        Refusal {
            ground: self.ground,
            input,
            offset: self.offset,
        }
    }
}
