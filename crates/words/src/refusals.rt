// Why a call is refused. Each refusal has one number, which the call returns: document 01, "Numbers returned", and document 02.
ghost use Rattle.std.specs.Prelude.{◌≡◌};
ghost use Rattle.words.specs.Refusals.{refusal_number};

#[derive(Clone, Copy, Debug, PartialEq, Eq)]
pub enum Refusal {
    MemoryOverLimit = 1,
    UnknownRegister = 2,
    UnnamedLanes = 3,
    NoFieldSize = 4,
    FourthWord = 5,
    BeyondMemory = 6,
    AlreadyWaiting = 7,
    NoneWaiting = 8,
    UnknownSource = 9,
    BlockTooLong = 10,
    Misfit = 11,
    // Of transcripts: a number that is cut off or missing, a leading zero group, a head over 31 or a word over 65,535.
    CutOff = 20,
    LeadingZeroGroup = 21,
    OverLargeNumber = 22,
    NoLanes = 23,
    ListTooSmall = 24,
    StreamEnded = 25,
    StreamTooLong = 26,
    // Of the bank selects.
    ByteAccess = 30,
    UnknownKind = 31,
    // Of strike sheets.
    TimeOutOfRange = 40,
    ListTooShort = 41,
    HollowWord = 42,
    WrongCount = 43,
    TicksNotRising = 44,
    UnknownRule = 45,
    // INCR is not set.
    NoIncrement = 46,
}

impl From<Refusal> for u8 {
    fn from(refusal: Refusal) -> u8
        ensures { result ≡ refusal_number refusal }
    {
        refusal as u8
    }
}
