// The covers of corner records as a layer (02, Q-9). What the call answers is defined in the crate `survey`.
//
// The call judges strips and records first, then counts the records that are kept, and only then puts their covers.
#![tactic(auto)]

mod checks;
mod fill;
mod keep;

ghost use Rattle.std.specs.Prelude.{◌≡◌, length};
ghost use Rattle.plan.specs.Causes.{refusal, by_number};
ghost use Rattle.survey.specs.CoverCall.{input_cause, cover_cause, cover_answer, cover_values, cover_after};

use checks::{all_sound, sound_strip};
use fill::put_kept;
use keep::count_kept;
use plan::{Cause, MOST_SIZE};
use survey::Strip;

// Puts the covers of the kept records into the first cells, and tells how many there are. The corners are four a record: left, bottom, right, top.
pub fn cover_records(
    across: Strip,
    upward: Strip,
    corners: &[f64],
    cells: &mut [i32],
) -> Result<usize, Cause>
    ensures answer { by_number result ≡ cover_answer across upward corners.now (length cells.old) }
    ensures values { cover_values (by_number result) ≡ cover_values (cover_answer across upward corners.now (length cells.old)) }
    ensures number { (cover_values (by_number result)).number ≡ cover_cause across upward corners.now (length cells.old) }
    ensures buffer { cells.new ≡ cover_after across upward corners.now cells.old }
{
    check_input(across, upward, corners)?;
    let n = count_kept(across, upward, corners);
    if n > MOST_SIZE as usize {
        return Err(Cause::WrongSize);
    }
    if cells.len() < 4 * n {
        return Err(Cause::FewCells);
    }
    put_kept(across, upward, corners, cells);
    Ok(n)
}

// The first of the causes 21 and 20 that applies.
fn check_input(across: Strip, upward: Strip, corners: &[f64]) -> Result<(), Cause>
    ensures { refusal result ≡ input_cause across upward corners.now }
{
    if !sound_strip(across) {
        return Err(Cause::WrongStops);
    }
    if !sound_strip(upward) {
        return Err(Cause::WrongStops);
    }
    if corners.len() % 4 != 0 {
        return Err(Cause::WrongRecord);
    }
    if !all_sound(corners) {
        return Err(Cause::WrongRecord);
    }
    Ok(())
}
