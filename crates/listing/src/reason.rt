// What may be wrong in a windows text, each with the number of its line in the table of words, where 0 stands for nothing.
ghost use Rattle.std.specs.Prelude.{◌≡◌};
ghost use Rattle.listing.specs.Reasons.{reason_number};

// What is wrong with a line of a windows text, or where one should be.
#[derive(Clone, Copy, PartialEq, Eq, Debug)]
pub enum Reason {
    // Not the two numbers that a window takes.
    OtherNumbers = 1,
    // Two numbers that are no window.
    WrongWindow = 2,
    // More or fewer windows than rectangles.
    ManyWindows = 3,
    FewWindows = 4,
    // Of a line that is not well formed, the first of the usual things.
    ByteOrderMark = 5,
    CarriageReturn = 6,
    BlankLine = 7,
    Space = 8,
    OtherWord = 9,
    Plus = 10,
    Point = 11,
    LeadingZero = 12,
    LongNumber = 13,
    NoLineEnd = 14,
}

impl From<Reason> for u32 {
    ghost from_gives = { λ reason number. number ≡ reason_number reason };

    fn from(reason: Reason) -> u32 {
        reason as u32
    }
}
