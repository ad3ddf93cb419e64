// What a refusal says: which question got a no.
ghost use Rattle.std.specs.Prelude.{◌≡◌};
ghost use Rattle.table.specs.Question.{number};

// The questions of documents 01 and 02, each by its no and with its number.
#[derive(Clone, Copy, Debug, PartialEq, Eq)]
pub enum Question {
    TextTooLong = 1,
    BadToken = 2,
    Misplaced = 3,
    Unbound = 4,
    Unguarded = 5,
    BadRange = 6,
    LabelTwice = 7,
    TooMany = 8,
    Unsound = 9,
    NotRunning = 10,
    AtEnd = 11,
    OutOfTurn = 12,
    BadFront = 13,
    BadField = 14,
    OtherLength = 15,
    OutputTooShort = 16,
    ListTooShort = 17,
    NoBranch = 18,
    BadShare = 19,
    BadShares = 20,
    BadSetting = 21,
    NotUtf8 = 22,
    BadEdition = 23,
}

impl From<Question> for u8 {
    ghost from_gives = { λ q n. n ≡ number q };

    fn from(question: Question) -> u8 {
        question as u8
    }
}

impl From<Question> for u32 {
    ghost from_gives = { λ q n. n ≡ number q };

    fn from(question: Question) -> u32 {
        question as u32
    }
}
