// The texts of the commands, as they are defined.
ghost use Rattle.std.specs.Prelude.{◌≡◌};
ghost use Rattle.commands.specs.Commands.{number_of_named, command_words, usage_lines, help_texts, version_line};

use commands::Command;

// The number of the text that stands behind those of the commands.
const BEHIND_ALL: u32 = 11;

// The number of a command's text; of the one behind them where there is no command.
pub fn text_number(command: Option<Command>) -> u32
    ensures { result ≡ number_of_named command }
{
    match command {
        Some(command) => u32::from(command),
        None => BEHIND_ALL,
    }
}

// The word of each command, ended by byte 0.
pub fn command_words() -> [u8; 74]
    ensures { result ≡ command_words }
{
    *b"report\0check\0pairs\0nearest\0apart\0classes\0hours\0cover\0picture\0help\0version\0"
}

// How each command is called: a line each.
pub fn usage_lines() -> [u8; 855]
    ensures { result ≡ usage_lines }
{
    *b"wanted: overlay report [FILE]\n\
wanted: overlay check [FILE]\n\
wanted: overlay pairs [LAYER] [FILE] (a layer by its number from 1 on, no plus, no leading zero)\n\
wanted: overlay nearest LEFT BOTTOM RIGHT TOP [FILE] (whole millimetres, at most eight digits, no plus, no leading zero)\n\
wanted: overlay apart PLACE.. [FILE], with a place for each layer (from 0 on, at most six, no plus, no leading zero)\n\
wanted: overlay classes [FILE]\n\
wanted: overlay hours WINDOWS-FILE [FILE]\n\
wanted: overlay cover LEFT BOTTOM RIGHT TOP [FILE], with a whole number of millimetres or - for each stop (at most eight digits, no plus, no leading zero)\n\
wanted: overlay picture [FILE]\n\
wanted: overlay help [COMMAND]\n\
wanted: overlay version\n\
wanted: overlay COMMAND [ARGUMENTS] [FILE], with a command of: report, check, pairs, nearest, apart, classes, hours, cover, picture, help, version\n"
}

// What is said of each command, and of all; each ended by byte 0.
pub fn help_texts() -> [u8; 3094]
    ensures { result ≡ help_texts }
{
    *b"overlay report [FILE]\n\
The rows of a plan text: ROW, the layer of the left guard, the places, the area in square millimetres, the kind;\n\
then TOTAL, the rows, the trials, the ground of all rows in square metres, ground under several rows counted once.\n\0\
overlay check [FILE]\n\
Whether a text is a plan's: PLAN, layers, rectangles; or the line that is wrong and why, on standard error.\n\0\
overlay pairs [LAYER] [FILE]\n\
The rows of each two layers, or of each two of which one is LAYER: PAIR, both layers, both places, the area, the kind; then TOTAL.\n\0\
overlay nearest LEFT BOTTOM RIGHT TOP [FILE]\n\
What lies nearest to a box in each layer: NEAR, the layer, the place, the squared gap, the gap in millimetres; or NONE, the layer.\n\0\
overlay apart PLACE.. [FILE]\n\
Whether the rectangles at these places, one a layer, share a point: SHARE; or APART and the first two layers that do not.\n\0\
overlay classes [FILE]\n\
The crossing report: each ROW with its class at the end; CLASS, class, count for each class that has rows; TOTAL.\n\0\
overlay hours WINDOWS-FILE [FILE]\n\
The timed run of a plan text with a windows text, which has a line WINDOW, from, to for each rectangle, in minutes of the week:\n\
each ROW with the first minute that its windows share and the first after these at the end; TOTAL.\n\
Of a windows text that is wrong, the first wrong line is told.\n\0\
overlay cover LEFT BOTTOM RIGHT TOP [FILE]\n\
The covers of the corner records that meet the stops, - being no stop: LAYER, their number, 0; then RECT and four corners for each.\n\
The input is bytes: left, bottom, right, top of each record in millimetres, as 64-bit floats, the little end first;\n\
at most 65536 bytes, which are 2048 records, of which at most 512 are kept.\n\0\
overlay picture [FILE]\n\
A picture of a plan text as SVG: the layers, the common ground of every row, a legend and a scale.\n\
A plan that the report refuses has no picture.\n\0\
overlay help [COMMAND]\n\
What a command does, or all commands.\n\0\
overlay version\n\
The version: that of the interface, OVERLAY_VERSION in overlay.h.\n\0\
overlay COMMAND [ARGUMENTS] [FILE]\n\
The text is the file named last, or standard input where none is named; - is a file's name.\n\
Exit status: 0 done, 1 refused, 2 wrong arguments, 3 not read or not written.\n\
report [FILE]                           the rows in which all layers meet\n\
check [FILE]                            whether a text is a plan's, and what is wrong in which line\n\
pairs [LAYER] [FILE]                    the rows of each two layers\n\
nearest LEFT BOTTOM RIGHT TOP [FILE]    what lies nearest to a box in each layer\n\
apart PLACE.. [FILE]                    whether rectangles, one a layer, share a point\n\
classes [FILE]                          the rows with their classes\n\
hours WINDOWS-FILE [FILE]               the rows that are there at the same time, with their minutes\n\
cover LEFT BOTTOM RIGHT TOP [FILE]      the covers of corner records, as a layer of a plan text\n\
picture [FILE]                          a picture of a plan as SVG\n\
help [COMMAND]                          what a command does\n\
version                                 the version of the interface\n\0"
}

// What `version` says.
pub fn version_line() -> [u8; 11]
    ensures { result ≡ version_line }
{
    *b"overlay 14\n"
}
