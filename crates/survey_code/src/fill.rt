// The covers of the kept records, put into the lent cells.
ghost use Rattle.std.specs.Prelude.{◌+◌};
ghost use Rattle.lists.specs.inner.Stores.{Put};
ghost use Rattle.survey.specs.CoverCall.{layer_of};
ghost use Rattle.survey.specs.inner.Puts.{cells_of, RecordFits, LayerFits};

use crate::checks::{cover, record_at};
use crate::keep::is_kept;
use plan_code::put_rect;
use survey::{Corners, Strip};

// The cells of all covers of kept records, from the first cell on.
pub fn put_kept(across: Strip, upward: Strip, corners: &[f64], cells: &mut [i32]) -> usize
    requires { LayerFits across upward corners.now cells.old }
    ensures { Put cells.old 0 (layer_of across upward corners.now) cells.new result }
{
    let n = corners.len() / 4;
    let mut at: usize = 0;
    for i in 0..n {
        let c = record_at(corners, i);
        at = put_if_kept(across, upward, c, cells, at);
    }
    at
}

// The cover's cells of a record that is kept, from a place on; the place behind them.
fn put_if_kept(across: Strip, upward: Strip, c: Corners, cells: &mut [i32], at: usize) -> usize
    requires { RecordFits across upward c cells.old at }
    ensures { Put cells.old at (cells_of across upward c) cells.new result }
{
    if is_kept(across, upward, c) {
        return put_rect(cells, at, cover(c));
    }
    at
}
