// The commands `classes` and `hours` of the program `overlay`, which make a whole run. What they say is defined in the crate `listing`.
#![tactic(auto)]

mod class_lines;
mod class_rows;
mod class_runs;
mod hour_lines;
mod hour_runs;

ghost use Rattle.outcomes.specs.Outcomes.{Told};
ghost use Rattle.outcomes.specs.inner.Rooms.{Room};
ghost use Rattle.listing.specs.Classes.{classes_said};
ghost use Rattle.listing.specs.Hours.{hours_said};

use class_runs::Classes;
use hour_runs::Hours;
use listing_code::tell_plan;
use outcomes::Reply;

// The cells of a whole run's work buffer: two for each of at most 6,144 rows.
const RUN_WORK_CELLS: usize = 12288;

// The crossing report of a plan text.
pub fn classes(text: &[u8], out: &mut [u8], err: &mut [u8]) -> Reply
    requires { Room out.old err.old }
    ensures { Told (classes_said text.now) out.old err.old out.new err.new result }
{
    tell_plan(&Classes, text, out, err)
}

// The timed run of a plan text with a windows text.
pub fn hours(text: &[u8], windows: &[u8], out: &mut [u8], err: &mut [u8]) -> Reply
    requires { Room out.old err.old }
    ensures { Told (hours_said text.now windows.now)
        out.old err.old out.new err.new result }
{
    tell_plan(&Hours { windows }, text, out, err)
}
