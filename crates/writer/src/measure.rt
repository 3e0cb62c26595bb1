// How many bytes a text takes, before it is written.
ghost use Rattle.std.specs.Prelude.{◌≡◌, true, ◌*◌, ◌≤◌, length};
ghost use Rattle.plan.specs.Limits.{most_rects};
ghost use Rattle.plan.specs.Plan.{Sound};
ghost use Rattle.text.specs.Spelling.{spell, all_short};
ghost use Rattle.text.specs.Plans.{rect_lines, text_of};
ghost use Rattle.text.specs.inner.Lengths.{layers_length};

use plan::Shape;
use plan_code::rect_at;
use speller::{layer_line_size, plan_line_size, rect_line_size};

// The length of the RECT lines of n rectangles.
fn rects_size(cells: &[i32], n: usize) -> usize
    requires { (length cells.now ≡ 4 * n) × (n ≤ most_rects) × (all_short (rect_lines cells.now) ≡ true) }
    ensures { result ≡ length (spell (rect_lines cells.now)) }
{
    let mut size: usize = 0;
    for p in 0..n {
        size += rect_line_size(rect_at(cells, p));
    }
    size
}

// The length of the LAYER lines of sizes and margins.
fn layers_size<'a>(sizes: &'a [u32], margins: &'a [u32]) -> usize
    requires { (length margins.now ≡ length sizes.now) × (length sizes.now ≤ 6) }
    ensures { result ≡ layers_length sizes.now margins.now }
{
    let mut size: usize = 0;
    for (j, n) in sizes.iter().enumerate() {
        size += layer_line_size(*n, margins[j]);
    }
    size
}

// The length of the text of a sound plan.
pub fn text_size(shape: Shape, cells: &[i32]) -> usize
    requires { Sound shape cells.now }
    ensures { result ≡ length (text_of shape cells.now) }
{
    let k = shape.k as usize;
    plan_line_size(shape.k)
        + layers_size(&shape.sizes[..k], &shape.margins[..k])
        + rects_size(cells, cells.len() / 4)
}
