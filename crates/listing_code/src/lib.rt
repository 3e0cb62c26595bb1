// The command `cover` of the program `overlay`, what any command says of a plan text or puts for rows, and windows texts read. What they say is defined in the
// crate `listing`.
#![tactic(auto)]

mod corners;
mod covers;
mod fault_lines;
mod line_reasons;
mod plans;
mod row_parts;
mod windows_text;

ghost use Rattle.outcomes.specs.Outcomes.{Told};
ghost use Rattle.outcomes.specs.inner.Rooms.{Room};
ghost use Rattle.listing.specs.Cover.{cover_said};

use covers::{across_of, cover_bytes, upward_of};
pub use fault_lines::put_fault;
use geometry::Rect;
use outcomes::{LONGEST_INPUT, Reply};
use outcomes_code::put_refusal;
use plan::Cause;
pub use plans::{PlanCommand, prepare, tell_plan};
pub use row_parts::{RowPart, put_rows};
pub use windows_text::read_windows;

// The covers of corner records, which are bytes, as a layer of a plan text. The stops are those whose weights `given` is the sum of: 1 left, 2 bottom, 4 right,
// 8 top.
pub fn cover(records: &[u8], stops: Rect, given: u32, out: &mut [u8], err: &mut [u8]) -> Reply
    requires { Room out.old err.old }
    ensures { Told (cover_said stops given records.now) out.old err.old out.new err.new result }
{
    if LONGEST_INPUT < records.len() {
        return put_refusal(out, err, Cause::LongInput);
    }
    let across = across_of(stops, given);
    let upward = upward_of(stops, given);
    cover_bytes(across, upward, records, out, err)
}
