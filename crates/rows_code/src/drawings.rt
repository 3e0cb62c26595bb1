// A plan as it is drawn. Only the rectangles that are looked at are grown.
ghost use Rattle.std.specs.Prelude.{◌≡◌, true, ◌*◌, ◌<◌, length, get_or, take, drop};
ghost use Rattle.plan.specs.Plan.{rect_at, sizes_of, Sound};
ghost use Rattle.rows.specs.RowCall.{fits};
ghost use Rattle.rows.specs.inner.Layers.{Reached};
ghost use Rattle.rows_code.specs.Reading.{widened, Readable, Readable-prop};

use crate::grown_in;
use geometry::Rect;
use plan::Shape;

// The sizes and margins of a plan's layers and its cells, each rectangle of which is grown as it is read.
#[derive(Clone, Copy)]
pub struct Drawing<'a> {
    pub sizes: &'a [u32],
    pub margins: &'a [u32],
    pub cells: &'a [i32],
    ghost readable: { Readable sizes.now margins.now cells.now } by { Readable-prop sizes.now margins.now cells.now },
}

impl<'a> Drawing<'a> {
    // The layers of a sound plan.
    pub fn of(shape: &'a Shape, cells: &'a [i32]) -> Drawing<'a>
        requires { Sound shape.now cells.now }
        ensures { (result.sizes.now ≡ sizes_of shape.now) × (result.margins.now ≡ shape.now.margins)
            × (result.cells.now ≡ cells.now) }
    {
        let k = shape.k as usize;
        Drawing {
            sizes: &shape.sizes[..k],
            margins: &shape.margins,
            cells,
        }
    }

    // The grown rectangle of a row that fits in layer j, which begins after `start` rectangles.
    pub fn rect(&self, row: &[u32], start: usize, j: usize) -> Rect
        requires reached { Reached self.now.sizes.now start j × (j < length self.now.sizes.now) }
        requires row_value { fits self.now.sizes.now row.now ≡ true }
        ensures { result ≡ rect_at (take (4 * get_or self.now.sizes.now j 0)
            (drop (4 * start) (widened self.now.sizes.now self.now.margins.now self.now.cells.now))) (get_or row.now j 0) }
    {
        let size = self.sizes[j] as usize;
        grown_in(self.cells, start, size, row[j] as usize, self.margins[j])
    }
}
