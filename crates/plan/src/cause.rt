// Why calls refuse, each with the number that the papers give it (01, "Causes and their numbers"; 02 from 14 on).
ghost use Rattle.std.specs.Prelude.{◌≡◌};
ghost use Rattle.plan.specs.Causes.{number_of};

// What is wrong with what a call was given.
#[derive(Clone, Copy, PartialEq, Eq, Debug)]
pub enum Cause {
    // k outside 2 to 6.
    WrongLayerCount = 1,
    // A size above 512, or not 0 past k.
    WrongSize = 2,
    // Cells other than four a rectangle.
    WrongCellCount = 3,
    // A coordinate out of range, left above right or bottom above top.
    WrongRectangle = 4,
    // An order buffer that does not hold the sweep order.
    WrongOrder = 5,
    // A ticket that names no trial of the walk and is not Ended in its one form.
    WrongTicket = 6,
    // A whole run whose table takes fewer rows than there are.
    SmallTable = 7,
    // An order maker's buffer of other than n cells.
    WrongOrderLength = 8,
    // A text that is not well formed.
    MalformedText = 9,
    // A well formed text of no plan that is taken.
    WrongPlanText = 10,
    // Too few cells for what they are to hold.
    FewCells = 11,
    // A writer's buffer that is shorter than the text.
    SmallTextBuffer = 12,
    // An input longer than the program reads.
    LongInput = 13,
    // A box out of range, or with left above right or bottom above top.
    WrongBox = 14,
    // Fewer than three layers for a crossing report.
    FewLayers = 15,
    // A segment layer with a rectangle that is no segment, or with a margin.
    WrongSegment = 16,
    // A margin out of range, or not 0 past k.
    WrongMargin = 17,
    // A run record that is not one cell, or not the ticket's count.
    WrongCounter = 18,
    // A work buffer of less than two cells a row.
    SmallWork = 19,
    // Corner records that are not four floats each, or with corners that no rectangle has.
    WrongRecord = 20,
    // Stops that are not finite, or the lower above the upper.
    WrongStops = 21,
    // A round's clients, first client, budget or run records out of range.
    WrongRound = 22,
    // Not k places, or a place not in its layer.
    WrongPlaces = 23,
    // Windows of other than two cells a rectangle, or a window not as stated.
    WrongWindow = 24,
}

impl From<Cause> for u32 {
    ghost from_gives = { λ cause number. number ≡ number_of cause };

    fn from(cause: Cause) -> u32 {
        cause as u32
    }
}
