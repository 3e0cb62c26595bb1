// What is wrong in a windows text, told.
ghost use Rattle.std.specs.Prelude.{◌≡◌, ◌≤◌, length};
ghost use Rattle.lists.specs.inner.Stores.{Put};
ghost use Rattle.outcomes.specs.Outcomes.{Told, refused_with};
ghost use Rattle.outcomes.specs.inner.Rooms.{Room, room_for_words};
ghost use Rattle.listing.specs.Reasons.{window_reasons};
ghost use Rattle.listing.specs.Windows.{fault_told, fault_line};

use checking_code::put_numbered;
use listing::Fault;
use outcomes::Reply;
use plan::Cause;
use printing_code::put_refused;
use speller::put_word;

// The refusal of a windows text.
pub fn put_fault(out: &mut [u8], err: &mut [u8], fault: Fault) -> Reply
    requires { Room out.old err.old }
    ensures { Told (refused_with 24 (fault_line (fault_told fault))) out.old err.old out.new err.new result }
{
    let m = put_refused(out, 0, u32::from(Cause::WrongWindow));
    let n = put_fault_line(err, fault);
    Reply::refused(m, n)
}

// The line that says what is wrong; its length.
fn put_fault_line(err: &mut [u8], fault: Fault) -> usize
    requires { room_for_words ≤ length err.old }
    ensures { Put err.old 0 (fault_line (fault_told fault)) err.new result }
{
    let lines = reason_lines();
    let at = put_word(err, 0, b"overlay: windows, line ");
    put_numbered(err, at, fault.line as u64, &lines, u32::from(fault.reason))
}

// What may be wrong, a line each.
fn reason_lines() -> [u8; 478]
    ensures { result ≡ window_reasons }
{
    *b"\n\
not the two numbers that WINDOW takes, each behind one tab\n\
from is less than 0 or not less than to, or to is greater than 10080\n\
more windows than rectangles\n\
fewer windows than rectangles\n\
a byte order mark\n\
a carriage return\n\
a blank line\n\
a space: fields are parted by one tab and nothing else\n\
a word that is not WINDOW, or no tab behind it\n\
a number with a plus\n\
a number with a point\n\
a number with a leading zero\n\
a number of nine digits or more\n\
no line end at the end of the text\n"
}
