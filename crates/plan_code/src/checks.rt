// The checks of a plan: 1, 2, 17, 3 and 4.
ghost use Rattle.std.specs.Prelude.{◌≡◌, ◌≤◌, length};
ghost use Rattle.lists.specs.Lists.{sum};
ghost use Rattle.plan.specs.Causes.{refusal};
ghost use Rattle.plan.specs.Plan.{count, fits_at, all_fit, all_ranged, shape_cause, plan_cause};
ghost use Rattle.plan.specs.Limits.{most_layers};

use crate::rect_at;
use geometry_code::in_range;
use plan::{Cause, MOST_LAYERS, MOST_MARGIN, MOST_SIZE, Shape};

// The first of the causes 1, 2, 17, 3 and 4 that applies.
pub fn check_plan(shape: Shape, cells: &[i32]) -> Result<(), Cause>
    ensures { refusal result ≡ plan_cause shape cells.now }
{
    check_shape(shape)?;
    if cells.len() != 4 * count_of(shape) {
        return Err(Cause::WrongCellCount);
    }
    if !all_ranged(cells) {
        return Err(Cause::WrongRectangle);
    }
    Ok(())
}

// The first of the causes 1, 2 and 17 that applies.
fn check_shape(shape: Shape) -> Result<(), Cause>
    ensures { refusal result ≡ shape_cause shape }
{
    let k = shape.k as usize;
    if k < 2 {
        return Err(Cause::WrongLayerCount);
    }
    if k > MOST_LAYERS {
        return Err(Cause::WrongLayerCount);
    }
    if !all_fit(&shape.sizes, MOST_SIZE, k) {
        return Err(Cause::WrongSize);
    }
    if !all_fit(&shape.margins, MOST_MARGIN, k) {
        return Err(Cause::WrongMargin);
    }
    Ok(())
}

// Each number is at most `most`, and 0 past k.
fn all_fit(numbers: &[u32], most: u32, k: usize) -> bool
    ensures { result ≡ all_fit most k 0 numbers.now }
{
    for (j, &number) in numbers.iter().enumerate() {
        if !fits_at(number, most, j, k) {
            return false;
        }
    }
    true
}

// Whether no layer has a margin: the grown plan is then the plan.
pub fn is_drawn(shape: Shape) -> bool
    ensures { result ≡ all_fit 0 most_layers 0 shape.margins }
{
    all_fit(&shape.margins, 0, MOST_LAYERS)
}

fn fits_at(n: u32, most: u32, j: usize, k: usize) -> bool
    ensures { result ≡ fits_at most k j n }
{
    n <= most && (j < k || n == 0)
}

// How many rectangles a plan of this shape has: the sum of its six sizes.
pub fn count_of(shape: Shape) -> usize
    ensures { (result ≡ sum shape.sizes) × (result ≤ 25769803770) }
{
    sum_of(&shape.sizes)
}

// The sum of sizes, of all layers or of those before one.
pub fn sum_of(sizes: &[u32]) -> usize
    requires { length sizes.now ≤ most_layers }
    ensures { result ≡ sum sizes.now }
{
    sizes.iter().map(|&size| size as usize).sum()
}

// Each rectangle in the cells is in range.
fn all_ranged(cells: &[i32]) -> bool
    ensures { result ≡ all_ranged (count cells.now) cells.now }
{
    let n = cells.len() / 4;
    for i in 0..n {
        if !in_range(rect_at(cells, i)) {
            return false;
        }
    }
    true
}
