// The refusals that document 01 numbers, and a refusal together with the record at which it was found.
#![tactic(auto)]

ghost use Rattle.std.specs.Prelude.{◌≡◌};
ghost use Rattle.refusal.specs.Number.{number};

#[derive(Clone, Copy, Debug, PartialEq, Eq)]
pub enum Refusal {
    Layout = 1,
    TooMany = 2,
    Arities = 3,
    Kind = 4,
    Range = 5,
    Spelling = 6,
    ChildCount = 7,
    Place = 8,
    Depth = 9,
    RecordsEnd = 10,
    NormalForm = 11,
    TooLarge = 12,
    OutputShort = 14,
    BadTable = 20,
    Sum = 21,
    NoFile = 22,
    WriteOutside = 23,
}

// A refusal and the record at which it was found: 0 where it is of no record.
#[derive(Clone, Copy, Debug, PartialEq, Eq)]
pub struct Fault {
    pub refusal: Refusal,
    pub index: u64,
}

impl Refusal {
    // Document 01's number.
    pub fn number(self) -> u32
        ensures { result ≡ number self }
    {
        self as u32
    }
}

impl From<Refusal> for Fault {
    ghost from_gives = { λ r f. f ≡ record { refusal = r; index = 0 } };

    fn from(refusal: Refusal) -> Fault {
        Fault { refusal, index: 0 }
    }
}
