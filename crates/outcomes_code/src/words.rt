// The words that stand on standard error.
ghost use Rattle.std.specs.Prelude.{◌≡◌};
ghost use Rattle.plan.specs.Causes.{number_of};
ghost use Rattle.outcomes.specs.Outcomes.{cause_lines, cause_line};

use plan::Cause;

// The number of a cause's line.
pub fn cause_line(cause: Cause) -> u32
    ensures { result ≡ cause_line (number_of cause) }
{
    u32::from(cause)
}

// What each cause means: a line each, from 0.
pub fn cause_lines() -> [u8; 1599]
    ensures { result ≡ cause_lines }
{
    *b"other\n\
the plan has not 2 to 6 layers\n\
a layer has more than 512 rectangles, or more than 512 records are kept\n\
the cells are not four for each rectangle\n\
a coordinate is not from -10000000 to 10000000, left is greater than right or bottom greater than top\n\
the order is not the sweep order of the plan\n\
the ticket is none of this plan\n\
there are more rows than 12288 / k, k being the number of layers; overlay pairs has no such limit\n\
the order buffer has not one cell for each rectangle\n\
the text is not well formed (overlay check tells the line)\n\
the text is well formed, but layers or rectangles are miscounted, or a number is out of range or out of order (overlay check tells the line)\n\
the cells are too few\n\
the text is longer than the buffer\n\
the input has more than 65536 bytes\n\
the box has left greater than right, bottom greater than top or a coordinate out of range\n\
the plan has fewer than three layers\n\
the last two layers are not segments without margin: east to west (bottom = top) in the last but one, north to south (left = right) in the last\n\
a margin is greater than 50000\n\
the ticket is not the newest of its run\n\
the work buffer is shorter than two cells for each row\n\
the corners are not four a record, or one is not finite, out of order or beyond ten million\n\
a stop is not finite, or the lower one of a strip is greater than the upper one\n\
a round has not 1 to 16 clients, or its budget or its records are wrong\n\
there is not one place for each layer, or a place is not in its layer\n\
there is not one window for each rectangle, or one does not end behind its start within the week of 10080 minutes\n"
}
