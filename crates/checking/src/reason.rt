// What `check` finds wrong in a text, each with the number of its line in the table of words.
ghost use Rattle.std.specs.Prelude.{◌≡◌};
ghost use Rattle.checking.specs.inner.Words.{reason_number};

// What is wrong with a line, or with the text.
#[derive(Clone, Copy, PartialEq, Eq, Debug)]
pub enum Reason {
    // Of a line that is not well formed.
    EmptyText = 0,
    ByteOrderMark = 1,
    CarriageReturn = 2,
    BlankLine = 3,
    NoPlanLine = 4,
    SecondPlanLine = 5,
    Space = 6,
    OtherWord = 7,
    OneNumber = 8,
    Plus = 9,
    Point = 10,
    LeadingZero = 11,
    LongNumber = 12,
    OtherNumbers = 13,
    NoLineEnd = 14,
    // Of a well formed line that is no plan's.
    WrongLayerCount = 15,
    OtherLayerCount = 16,
    WrongSize = 17,
    WrongMargin = 18,
    FewRects = 19,
    ManyRects = 20,
    EarlyRect = 21,
    LeftAboveRight = 22,
    BottomAboveTop = 23,
    OutOfRange = 24,
}

impl From<Reason> for u32 {
    ghost from_gives = { λ reason number. number ≡ reason_number reason };

    fn from(reason: Reason) -> u32 {
        reason as u32
    }
}
