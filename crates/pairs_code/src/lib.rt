// The first pair of layers whose rectangles at the places do not meet (02, Q-11). What the call answers is defined in the crate `pairs`.
#![tactic(auto)]

ghost use Rattle.std.specs.Prelude.{◌≡◌, true, ◌+◌};
ghost use Rattle.plan.specs.Causes.{by_number};
ghost use Rattle.plan.specs.Plan.{layers_of};
ghost use Rattle.join.specs.Join.{rects};
ghost use Rattle.rows.specs.RowCall.{fits};
ghost use Rattle.rows.specs.inner.Layers.{Reached, rects_from};
ghost use Rattle.rows_code.specs.Reading.{widened};
ghost use Rattle.pairs.specs.PairCall.{apart_at, first_pair, pair_call, pair_values};
ghost use Rattle.pairs.specs.inner.Told.{told};

use geometry::Rect;
use geometry_code::meet;
use pairs::Pair;
use plan::{Cause, Shape};
use plan_code::check_plan;
use rows_code::{Drawing, all_fit};

// The first pair of layers whose rectangles at the places do not meet; none where they all share a point.
pub fn apart_pair(shape: Shape, cells: &[i32], places: &[u32]) -> Result<Option<Pair>, Cause>
    ensures answer { by_number result ≡ pair_call shape cells.now places.now }
    ensures values { pair_values (by_number result) ≡ pair_values (pair_call shape cells.now places.now) }
{
    check_plan(shape, cells)?;
    pair_in(&Drawing::of(&shape, cells), places)
}

// The answer for the layers of a plan.
fn pair_in(drawing: &Drawing, row: &[u32]) -> Result<Option<Pair>, Cause>
    ensures { let ns = drawing.now.sizes.now in
        by_number result ≡ told ns (widened ns drawing.now.margins.now drawing.now.cells.now) row.now }
{
    if !all_fit(drawing.sizes, row) {
        return Err(Cause::WrongPlaces);
    }
    Ok(first_pair(drawing, row))
}

// The first pair among the rectangles of a row that fits. Each pair is asked once at most.
fn first_pair(drawing: &Drawing, row: &[u32]) -> Option<Pair>
    requires { fits drawing.now.sizes.now row.now ≡ true }
    ensures { let ns = drawing.now.sizes.now in
        result ≡ first_pair 1 (rects (layers_of ns (widened ns drawing.now.margins.now drawing.now.cells.now)) row.now) }
{
    let sizes = drawing.sizes;
    let mut start = 0;
    for i in 0..sizes.len() {
        let r = drawing.rect(row, start, i);
        start += sizes[i] as usize;
        let j = apart_from(r, drawing, row, start, i + 1);
        if j < sizes.len() {
            let lower = i as u32 + 1;
            let higher = j as u32 + 1;
            return Some(Pair { lower, higher });
        }
    }
    None
}

// The first layer, from 0, behind the first `after` ones whose rectangle does not meet r; k where each does.
fn apart_from(r: Rect, drawing: &Drawing, row: &[u32], before: usize, after: usize) -> usize
    requires row_value { fits drawing.now.sizes.now row.now ≡ true }
    requires reached { Reached drawing.now.sizes.now before after }
    ensures { let ns = drawing.now.sizes.now in
        result ≡ after + apart_at r (rects_from ns (widened ns drawing.now.margins.now drawing.now.cells.now) row.now before after) }
{
    let sizes = drawing.sizes;
    let mut start = before;
    for j in after..sizes.len() {
        let Some(_) = meet(r, drawing.rect(row, start, j)) else {
            return j;
        };
        start += sizes[j] as usize;
    }
    sizes.len()
}
