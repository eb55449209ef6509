// Why a call is refused or a run is over: document 01's and 02's numbers as one type.
ghost use Rattle.std.specs.Prelude.{◌≡◌};
ghost use Rattle.chain.specs.Refusal.{number_of};

// Each variant has its number in the documents. `UsedUp` is 16: a slice is used up and its run is still open, or a stream ends too soon.
#[derive(Clone, Copy, Debug, PartialEq, Eq)]
pub enum Refusal {
    BadChain = 1,
    BadMode = 2,
    RunOpen = 3,
    NoRun = 4,
    NoPreamble = 5,
    Barred = 6,
    NoCheck = 7,
    BadCheckByte = 8,
    EndsHere = 9,
    LastDevice = 10,
    BadStart = 11,
    BadEnd = 12,
    BadTables = 13,
    BadData = 14,
    TooShort = 15,
    UsedUp = 16,
    IllFormed = 17,
    PastEprom = 18,
    BadJump = 19,
    BadLengths = 23,
    NoHead = 27,
}

impl Refusal {
    // The number that a caller in C is given.
    pub fn number(self) -> u8
        ensures { result ≡ number_of self }
    {
        self as u8
    }
}
