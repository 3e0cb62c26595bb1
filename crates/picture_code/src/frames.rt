// The ground that a picture shows.
ghost use Rattle.std.specs.Prelude.{◌≡◌, ◌*◌, length};
ghost use Rattle.plan.specs.Plan.{count};
ghost use Rattle.join.specs.Join.{no_rect};
ghost use Rattle.picture.specs.Frames.{around, ground_of, frame_of};
ghost use Rattle.picture.specs.inner.Parts.{Small};

use geometry::Rect;
use geometry_code::span;
use picture::Frame;
use plan_code::rect_at;

// The smallest rectangle around two.
fn around_of(a: Rect, b: Rect) -> Rect
    ensures { result ≡ around a b }
{
    Rect {
        left: a.left.min(b.left),
        bottom: a.bottom.min(b.bottom),
        right: a.right.max(b.right),
        top: a.top.max(b.top),
    }
}

// No ground.
fn nothing() -> Rect
    ensures { result ≡ no_rect }
{
    Rect {
        left: 0,
        bottom: 0,
        right: 0,
        top: 0,
    }
}

// The ground of all rectangles in the cells.
pub fn ground_of(cells: &[i32]) -> Rect
    requires { length cells.now ≡ 4 * count cells.now }
    ensures { result ≡ ground_of cells.now }
{
    if cells.len() == 0 {
        return nothing();
    }
    let n = cells.len() / 4;
    let mut ground = rect_at(cells, 0);
    for i in 0..n {
        ground = around_of(ground, rect_at(cells, i));
    }
    ground
}

// The frame of some ground.
pub fn frame_of(ground: Rect) -> Frame
    ensures { (result ≡ frame_of ground) × Small result }
{
    let width = span(ground.left, ground.right);
    let height = span(ground.bottom, ground.top);
    let unit = (width + height) / 200 + 1;
    Frame {
        left: ground.left,
        top: ground.top,
        width,
        height,
        unit,
    }
}
